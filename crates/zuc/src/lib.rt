//! ZUC, the stream cipher under 128-EEA3 and 128-EIA3 (TS 35.222). `Zuc` puts out its keystream sixteen words at a time.
#![tactic(auto)]

mod generator;
mod keystream;
mod s_boxes;

pub use keystream::Zuc;
