//! Which station can derive which key of a ladder by itself, from the keys that it holds (TS 33.401 Annex A).
#![tactic(auto)]

mod audits;
mod checks;
mod laws;
mod paths;
mod texts;

pub use audits::{Audit, AuditMemory, AuditRow, audit_of};
pub use checks::check;
pub use laws::marks_are_exact;
pub use texts::{audit_text, first_line, last_line, row_line};
