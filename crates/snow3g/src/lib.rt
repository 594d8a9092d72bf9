//! SNOW 3G, the stream cipher under 128-EEA1 and 128-EIA1 (TS 35.216). `Snow3g` puts out its keystream sixteen words at a
//! time.
#![tactic(auto)]

mod alphas;
mod generator;
mod keystream;
mod s1_box;
mod s2_box;

pub use keystream::Snow3g;
