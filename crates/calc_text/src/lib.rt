//! One line of `calc`: what it asks for, and its answer.
#![tactic(auto)]

mod answering;
mod ciphering;
mod fields;
mod line_fields;
mod line_texts;
mod nas_answering;
mod nas_trying;
mod octet_texts;
mod pdu_answering;
mod pdu_reading;
mod reading;
mod recovering;
mod requests;
mod srb_trying;
mod trying;

pub use answering::{Answer, answer_to};
pub use fields::{Field, LineFault};
pub use octet_texts::Octets;
pub use requests::{
    Algorithm, Algorithms, BearerInputs, DrbOctets, Inputs, KeyedText, NasPdu, NasText,
    Reestablishment, Request, ServicePdu, SrbPdu, SrbText, UsimKeys,
};
