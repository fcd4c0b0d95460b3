use gate_applier::Applier;
use gate_lines::log_page;
use gate_pages::{Board, status_page};
use std::alloc::{AllocError, Global};
use std::io::Write;

fn board_of(alloc: Global, applier: &Applier, shown: &mut Vec<u8>) -> Option<Board> {
    match Board::of(alloc, applier) {
        Ok(board) => Some(board),
        Err(AllocError) => {
            let _ = writeln!(shown, "Board::of: OutOfMemory");
            Board::of(alloc, applier).ok()
        }
    }
}

fn status_of(alloc: Global, board: &Board, shown: &mut Vec<u8>) -> Option<Vec<u8>> {
    match status_page(alloc, board) {
        Ok(page) => Some(page),
        Err(AllocError) => {
            let _ = writeln!(shown, "status_page: OutOfMemory");
            status_page(alloc, board).ok()
        }
    }
}

fn log_of(alloc: Global, applier: &Applier, shown: &mut Vec<u8>) -> Option<Vec<u8>> {
    let (records, outcomes) = (applier.records(), applier.outcomes());
    match log_page(alloc, records, outcomes) {
        Ok(page) => Some(page),
        Err(AllocError) => {
            let _ = writeln!(shown, "log_page: OutOfMemory");
            log_page(alloc, records, outcomes).ok()
        }
    }
}

fn show_page(page: Option<Vec<u8>>, shown: &mut Vec<u8>) {
    if let Some(page) = page {
        let _ = shown.extend_from_slice(&page);
    }
}

/// Prints the status page of an applier.
pub fn show_status(alloc: Global, applier: &Applier, shown: &mut Vec<u8>) {
    if let Some(board) = board_of(alloc, applier, shown) {
        let page = status_of(alloc, &board, shown);
        show_page(page, shown);
    }
}

/// Prints the log page of an applier.
pub fn show_log(alloc: Global, applier: &Applier, shown: &mut Vec<u8>) {
    let page = log_of(alloc, applier, shown);
    show_page(page, shown);
}
