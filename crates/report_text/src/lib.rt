//! The texts that a run writes: reports, inclusions, tables, and what became of batches and files.
//!
//! Each line is one record of csv. `Lines` takes several texts one after another.
#![tactic(auto)]

mod certificate_lines;
mod field;
mod inclusion_lines;
mod lines;
mod number_texts;
mod outcome_lines;
mod plain_line;
mod report_lines;
mod table_lines;

pub use certificate_lines::certificate;
pub use inclusion_lines::inclusions;
pub use lines::Lines;
pub use outcome_lines::{applied_line, demo_line, fault_line, file_line, refused_line};
pub use report_lines::report;
pub use table_lines::{table_file, tables};
