ghost use Rattle.std.specs.Prelude.{◌≡◌, ◌<◌, ◌≤◌, ◌+◌, ◌++◌, ◌||◌, [], ◌∷◌, ℕ, Bool, true, false, length, count_by, vec_len, vec_capacity, Contains, All, IfNone, IfSome, slice_index_or, slice_set};
ghost use Rattle.std.specs.BinaryHeap.{heap_items, heap_len, heap_capacity, IsHeap, KeepsHeap};
ghost use Rattle.std.specs.List.Sorted.{IsPermutation};
ghost use Rattle.gate_downtime.specs.declared.gone.Mark.{Mark};
ghost use Rattle.gate_downtime.specs.inner.Rows.{live_at};
ghost use Rattle.gate_downtime.specs.inner.Gone.{gone_cmp, is_free, FitsMarks, Lists, AllGone, SameGone, Pops, Returns, AllPassed, TakesGone};
ghost use Rattle.gate_downtime.specs.inner.Sizes.{HasSpace, OneMore, SameSize};

use crate::row::{Row, is_live_at, push_within, row_at};
use std::alloc::Global;
use std::cmp::Reverse;
use std::collections::BinaryHeap;

/// Whether a row is in the list, and whether it was returned.
#[derive(Clone, Copy)]
pub struct Mark {
    pub listed: bool,
    pub returned: bool,
}

/// The indexes of the rows that are live no more, the least first, and a mark for each row.
#[derive(Drop)]
pub struct Gone {
    pub marks: Vec<Mark>,
    pub heap: BinaryHeap<Reverse<usize>>,
}

/// No rows, and none that is live no more.
pub fn no_gone(alloc: Global) -> Gone
    ensures gone { (t : ℕ) → AllGone t [] result }
    ensures len { vec_len result.marks ≡ 0 }
{
    Gone {
        marks: Vec::new(alloc),
        heap: BinaryHeap::new(alloc),
    }
}

fn push_gone(heap: &mut BinaryHeap<Reverse<usize>>, at: usize)
    requires { heap_len heap.old < heap_capacity heap.old }
    ensures items { IsPermutation (record { 0 = at } ∷ heap_items heap.old) (heap_items heap.new) }
    ensures order { KeepsHeap gone_cmp (heap_items heap.old) (heap_items heap.new) }
    ensures len { heap_len heap.new ≡ heap_len heap.old + 1 }
    ensures capacity { heap_capacity heap.old ≤ heap_capacity heap.new }
{
    match heap.push(Reverse(at)) {
        Ok(()) => (),
        Err(_) => unreachable!(),
    }
}

fn write_mark(marks: &mut Vec<Mark>, at: usize, mark: Mark)
    requires { at < length marks.old.items }
    ensures items { marks.new.items ≡ slice_set marks.old.items at mark }
    ensures size { SameSize marks.old marks.new }
{
    marks[at] = mark;
}

fn mark_at(marks: &[Mark], at: usize) -> Mark
    requires { at < length marks.now }
    ensures { (m : Mark) → result ≡ slice_index_or marks.now at m }
{
    marks[at]
}

/// Lists the row at this index, where it isn't live.
pub fn list_gone(gone: &mut Gone, at: usize, live: bool)
    requires within { at < length gone.old.marks.items }
    requires room { heap_len gone.old.heap + count_by is_free gone.old.marks.items
        ≤ heap_capacity gone.old.heap }
    requires kept { FitsMarks gone.old }
    ensures { Lists at live gone.old gone.new }
{
    if live {
        return;
    }
    let mark = mark_at(&gone.marks, at);
    if mark.listed || mark.returned {
        return;
    }
    push_gone(&mut gone.heap, at);
    write_mark(
        &mut gone.marks,
        at,
        Mark {
            listed: true,
            returned: false,
        },
    );
}

/// The mark of a new row.
pub fn push_mark(gone: &mut Gone)
    requires { HasSpace gone.old.marks }
    ensures marks { gone.new.marks.items
        ≡ gone.old.marks.items ++ (record { listed = false; returned = false }) ∷ [] }
    ensures size { OneMore gone.old.marks gone.new.marks }
    ensures heap { gone.new.heap ≡ gone.old.heap }
{
    push_within(
        &mut gone.marks,
        Mark {
            listed: false,
            returned: false,
        },
    );
}

/// Takes the least index of the heap.
fn pop_heap(heap: &mut BinaryHeap<Reverse<usize>>) -> Option<usize>
    requires { IsHeap gone_cmp (heap_items heap.old) }
    ensures none { IfNone result (heap_items heap.old ≡ []) }
    ensures none_same { IfNone result (heap_items heap.new ≡ heap_items heap.old) }
    ensures some { IfSome result (λ k. IsPermutation (heap_items heap.old)
        (record { 0 = k } ∷ heap_items heap.new)) }
    ensures least { IfSome result (λ k. All (λ x. k ≤ x.0) (heap_items heap.new)) }
    ensures order { IsHeap gone_cmp (heap_items heap.new) }
    ensures fewer { IfSome result (λ k. heap_len heap.new + 1 ≡ heap_len heap.old) }
    ensures len { IfNone result (heap_len heap.new ≡ heap_len heap.old) }
    ensures capacity { heap_capacity heap.new ≡ heap_capacity heap.old }
{
    match heap.pop() {
        None => None,
        Some(least) => Some(least.0),
    }
}

/// Takes the least listed row.
fn pop_listed(gone: &mut Gone) -> Option<usize>
    requires { FitsMarks gone.old }
    ensures none { IfNone result (heap_items gone.old.heap ≡ []) }
    ensures none_heap { IfNone result (heap_items gone.new.heap ≡ heap_items gone.old.heap) }
    ensures none_len { IfNone result (heap_len gone.new.heap ≡ heap_len gone.old.heap) }
    ensures none_marks { IfNone result (gone.new.marks ≡ gone.old.marks) }
    ensures some { IfSome result (λ at. Pops at gone.old gone.new) }
    ensures fewer { IfSome result (λ at. heap_len gone.new.heap + 1 ≡ heap_len gone.old.heap) }
    ensures same { SameGone gone.old gone.new }
{
    let Some(at) = pop_heap(&mut gone.heap) else {
        return None;
    };
    let mark = mark_at(&gone.marks, at);
    write_mark(
        &mut gone.marks,
        at,
        Mark {
            listed: false,
            returned: mark.returned,
        },
    );
    Some(at)
}

/// The row at this index is returned.
fn mark_returned(gone: &mut Gone, at: usize)
    requires { at < length gone.old.marks.items }
    ensures { Returns at gone.old gone.new }
{
    let mark = mark_at(&gone.marks, at);
    write_mark(
        &mut gone.marks,
        at,
        Mark {
            listed: mark.listed,
            returned: true,
        },
    );
}

/// Whether the row is live, or was returned.
fn is_passed(row: Row, mark: Mark, now: u32) -> bool
    ensures { result ≡ (live_at now row || mark.returned) }
{
    is_live_at(row, now) || mark.returned
}

/// Takes the least row that is live no more, and wasn't returned.
pub fn take_gone(rows: &[Row], gone: &mut Gone, now: u32) -> Option<usize>
    requires { AllGone now rows.now gone.old }
    ensures gone { AllGone now rows.now gone.new }
    ensures none { IfNone result (AllPassed now rows.now gone.old (length rows.now)) }
    ensures none_same { IfNone result (SameGone gone.old gone.new) }
    ensures some { IfSome result (λ at. TakesGone now rows.now at gone.old gone.new) }
{
    'listed: while let Some(at) = pop_listed(gone) {
        let row = row_at(rows, at);
        let mark = mark_at(&gone.marks, at);
        if !is_passed(row, mark, now) {
            mark_returned(gone, at);
            return Some(at);
        }
    }
    None
}
