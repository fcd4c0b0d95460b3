use gate_model::{Numbered, Record};
use gate_reader::Report;
use std::io::Write;

fn show_report(report: &Report, shown: &mut Vec<u8>) {
    let _ = write!(shown, "{:?} |", report.stop);
    for answer in report.answers.as_slice() {
        let _ = write!(shown, " {answer:?}");
    }
    let _ = writeln!(shown);
}

/// Prints a client's number, and a line for each of its reports: the stop, and the answers.
pub fn show_reports(client: u32, reports: &[Report], shown: &mut Vec<u8>) {
    let _ = writeln!(shown, "client {client}");
    for report in reports {
        show_report(report, shown);
    }
}

/// Prints an item as its client and its number.
pub fn show_item(item: &Numbered, shown: &mut Vec<u8>) {
    let _ = writeln!(shown, "{}:{}", item.client, item.number);
}

/// Prints the items of records, a line each.
pub fn show_records(records: &[Record], shown: &mut Vec<u8>) {
    for record in records {
        show_item(&record.item, shown);
    }
}
