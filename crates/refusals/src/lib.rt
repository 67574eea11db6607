// Why a call is refused: a reason and a layer, each with its number, and a place. A refusal is passed up unaltered by every layer.
#![tactic(auto)]

ghost use Rattle.std.specs.Prelude.{◌≡◌, Some};
ghost use Rattle.refusals.specs.Numbers.{reason_number, layer_number};
ghost use Rattle.refusals.specs.Slips.{direction_too_long, part_missing, swelled_too_far, pose_out_of_range, slip_text};

use std::error::Error;
use std::fmt;

// The reasons, by what is wrong.
#[derive(Clone, Copy, PartialEq, Eq, Debug)]
pub enum Reason {
    DirectionTooLong = 1,
    BadBytes = 2,
    NoSuchPart = 3,
    SwelledTooFar = 4,
    NoSuchStation = 5,
    StationTaken = 6,
    StationEmpty = 7,
    PoseOutOfRange = 8,
    TooNear = 9,
    GripperFull = 10,
    GripperEmpty = 11,
    NoRoom = 12,
    CornerTooFar = 13,
    PartsMiscounted = 14,
}

// The layer that refuses.
#[derive(Clone, Copy, PartialEq, Eq, Debug)]
pub enum Layer {
    Call = 0,
    ChainedBook = 1,
    BoxBook = 2,
    Swell = 3,
    Cell = 4,
    Store = 5,
}

// A refusal slip. The place is a record, part or station. It is a number, 0 where none is named, and no `Option`: the rules make a slip three numbers.
#[derive(Clone, Copy, PartialEq, Eq, Debug)]
pub struct Refusal {
    pub reason: Reason,
    pub layer: Layer,
    pub place: u32,
}

impl Refusal {
    // A number of a direction is beyond ±2,000,000,000.
    pub fn direction_too_long() -> Refusal
        ensures { result ≡ direction_too_long }
    {
        Refusal {
            reason: Reason::DirectionTooLong,
            layer: Layer::Call,
            place: 0,
        }
    }

    // The book of a layer has no such part.
    pub fn part_missing(layer: Layer, part: u16) -> Refusal
        ensures { result ≡ part_missing layer part }
    {
        Refusal {
            reason: Reason::NoSuchPart,
            layer,
            place: u32::from(part),
        }
    }

    // A swelled coordinate of the part is beyond ±5.
    pub fn swelled_too_far(part: u16) -> Refusal
        ensures { result ≡ swelled_too_far part }
    {
        Refusal {
            reason: Reason::SwelledTooFar,
            layer: Layer::Swell,
            place: u32::from(part),
        }
    }

    // A turn is not 0 to 3, or an end of a travel is beyond ±9.
    pub fn pose_out_of_range() -> Refusal
        ensures { result ≡ pose_out_of_range }
    {
        Refusal {
            reason: Reason::PoseOutOfRange,
            layer: Layer::Cell,
            place: 0,
        }
    }
}

// A slip by its three numbers.
impl fmt::Display for Refusal {
    ghost output = { λ slip. Some (slip_text slip) };

    fn fmt<W: fmt::Write>(&self, f: &mut fmt::Formatter<W>) -> fmt::Result {
        let (reason, layer) = (u8::from(self.reason), u8::from(self.layer));
        write!(
            f,
            "refused by {reason} (layer {layer}, place {})",
            self.place
        )
    }
}

impl Error for Refusal {}

// The number of a reason, as slips print it.
impl From<Reason> for u8 {
    ghost from_gives = { λ reason number. number ≡ reason_number reason };

    fn from(reason: Reason) -> u8 {
        reason as u8
    }
}

// The number of a layer, as slips print it.
impl From<Layer> for u8 {
    ghost from_gives = { λ layer number. number ≡ layer_number layer };

    fn from(layer: Layer) -> u8 {
        layer as u8
    }
}
