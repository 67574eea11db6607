// Tests that show a reader what each call does: examples, extremes, ties and empty input.
#![tactic(auto)]

#[cfg(test)]
mod arithmetic;
#[cfg(test)]
mod made;
#[cfg(test)]
mod measured;
#[cfg(test)]
mod searches;
