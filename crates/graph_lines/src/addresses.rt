// 7 ALIGN, 8 BOUNDS and 9 CARRY: the store (line 1) and the loads, by line.
ghost use Rattle.std.specs.Prelude.{◌≡◌, ◌&&◌, ◌/◌, eqb};
ghost use Rattle.rules.specs.Units.{width_bytes};
ghost use Rattle.rules.specs.Frames.{load_kind};
ghost use Rattle.rules.specs.Answers.{of_result};
ghost use Rattle.rules.specs.Checks.{beyond, misaligned, length_of, carries, align_check, bounds_check, carry_check};
ghost use Rattle.graph.specs.Headers.{graph_in};

use crate::lines::first_at_fault;
use graph::Header;
use rules::answers::Refusal;
use rules::limits::{HEADER_LINE, LOAD_KIND, WORK};
use rules::sheet::Row;
use rules::units::Width;

// Whole elements in so many bytes. The width is a constant in each case: no division is left in the compiled code.
fn whole(width: Width, bytes: u64) -> u64
    ensures { result ≡ bytes / width_bytes width }
{
    match width {
        Width::One => bytes,
        Width::Two => bytes / 2,
        Width::Four => bytes / 4,
        Width::Eight => bytes / 8,
    }
}

// "address + nD beyond" an end, by the elements that have room: the sum itself might be too large for a number of 64 bits.
fn beyond(width: Width, n: u64, address: u64, end: u64) -> bool
    ensures { result ≡ beyond (width_bytes width) n address end }
{
    end < address || whole(width, end - address) < n
}

fn row_misaligned(width: Width, row: Row) -> bool
    ensures { result ≡ (eqb row.kind load_kind && misaligned (width_bytes width) row.y) }
{
    row.kind == LOAD_KIND && !ranges::is_multiple(width, row.y)
}

fn row_beyond(head: Header, row: Row, work_len: u64, table_len: u64) -> bool
    ensures { result ≡ (eqb row.kind load_kind && beyond (width_bytes head.width) head.elements row.y (length_of row.x work_len table_len)) }
{
    let end = if row.x == WORK { work_len } else { table_len };
    row.kind == LOAD_KIND && beyond(head.width, head.elements, row.y, end)
}

// "a work load with A < S < A+nD"
fn row_carries(head: Header, row: Row) -> bool
    ensures { result ≡ (eqb row.kind load_kind && carries (width_bytes head.width) head.elements head.store.0 row.x row.y) }
{
    let store = head.store.0;
    row.kind == LOAD_KIND
        && row.x == WORK
        && row.y < store
        && beyond(head.width, head.elements, row.y, store)
}

#[tactic(auto, using(crate::proofs::LineLaws::store_refuses), unfolding(rules::specs::Checks::align_check))]
pub fn align(head: Header, nodes: &[u64]) -> Result<(), Refusal>
    ensures { of_result result ≡ align_check (graph_in head nodes.now) }
{
    if !ranges::is_multiple(head.width, head.store.0) {
        return Err(Refusal::Align(HEADER_LINE));
    }
    match first_at_fault(head, nodes, |row, _| row_misaligned(head.width, row)) {
        Some(line) => Err(Refusal::Align(line)),
        None => Ok(()),
    }
}

#[tactic(auto, using(crate::proofs::LineLaws::store_refuses), unfolding(rules::specs::Checks::bounds_check))]
pub fn bounds(head: Header, nodes: &[u64], work_len: u64, table_len: u64) -> Result<(), Refusal>
    ensures { of_result result ≡ bounds_check (graph_in head nodes.now) work_len table_len }
{
    if beyond(head.width, head.elements, head.store.0, work_len) {
        return Err(Refusal::Bounds(HEADER_LINE));
    }
    match first_at_fault(
        head,
        nodes,
        |row, _| row_beyond(head, row, work_len, table_len),
    ) {
        Some(line) => Err(Refusal::Bounds(line)),
        None => Ok(()),
    }
}

pub fn carry(head: Header, nodes: &[u64]) -> Result<(), Refusal>
    ensures { of_result result ≡ carry_check (graph_in head nodes.now) }
{
    match first_at_fault(head, nodes, |row, _| row_carries(head, row)) {
        Some(line) => Err(Refusal::Carry(line)),
        None => Ok(()),
    }
}
