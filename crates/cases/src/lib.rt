// Worked examples, run as tests.
#![tactic(auto)]

#[cfg(test)]
mod drafts;
#[cfg(test)]
mod images;
#[cfg(test)]
mod language;
#[cfg(test)]
mod layers;
#[cfg(test)]
mod masks;
#[cfg(test)]
mod packed;
#[cfg(test)]
mod set_ups;
