// The parts on the tray, by their corners.
use exact::corner::Corner;

// A lid that leans: its left edge lies on the table and its right edge stands three steps high.
pub(crate) const SLANTED_LID: [Corner; 8] = [
    Corner { x: -5, y: -4, z: 0 },
    Corner { x: -5, y: 4, z: 0 },
    Corner { x: 5, y: -4, z: 3 },
    Corner { x: 5, y: 4, z: 3 },
    Corner { x: -5, y: -4, z: 1 },
    Corner { x: -5, y: 4, z: 1 },
    Corner { x: 5, y: -4, z: 4 },
    Corner { x: 5, y: 4, z: 4 },
];

// A case that stands to the right of the lid on feet that reach out at its sides: the hull of its rim and its feet.
pub(crate) const CASE_WITH_FEET: [Corner; 8] = [
    Corner { x: 8, y: -2, z: 7 },
    Corner { x: 8, y: 2, z: 7 },
    Corner { x: 12, y: -2, z: 7 },
    Corner { x: 12, y: 2, z: 7 },
    Corner { x: 6, y: -5, z: 0 },
    Corner { x: 6, y: 5, z: 0 },
    Corner { x: 13, y: -5, z: 0 },
    Corner { x: 13, y: 5, z: 0 },
];
