//! Examples that are proved from the contracts alone, so that no body that differs here can meet its contract.
use buffer_store::MOST_WIDTH;
use chunk_layout::{MAX_COLUMNS, MAX_ROWS, MAX_SIZE};
use ent_types::limits::{
    MOST_BLOCK_ROWS, MOST_BUFFER_FIELDS, MOST_COLUMN_BYTES, MOST_ELEMENTS, MOST_TYPES,
};
use ent_types::{FieldKind, Kind, SystemVersion, TypeId, TypeSet, fit};

// The crates of layouts and of buffers depend on no other, so they have their own names for these limits.
const _: () = prove!(MAX_ROWS == MOST_BLOCK_ROWS);

const _: () = prove!(MAX_COLUMNS == MOST_TYPES);

const _: () = prove!(MAX_SIZE == MOST_COLUMN_BYTES);

const _: () = prove!(buffer_store::MOST_ELEMENTS as usize == MOST_ELEMENTS);

const _: () = prove!(MOST_WIDTH as usize == MOST_BUFFER_FIELDS);

/// The version after the last one isn't 0.
fn wraps() {
    let next = SystemVersion(4294967295).next();
    let holds = next.0 == 1;
    prove!(holds);
}

/// A version is not later than itself.
fn is_not_later_than_itself() {
    let later = SystemVersion(5).did_change(SystemVersion(5));
    prove!(!later);
}

/// Each change is later than 'never'.
fn is_later_than_never() {
    let later = SystemVersion(5).did_change(SystemVersion(0));
    prove!(later);
}

/// A ref field keeps no number.
fn keeps_no_number() {
    let kept = fit(FieldKind::Ref, 5);
    let holds = kept == 0;
    prove!(holds);
}

/// A type that was put in is in the set.
fn changes_a_set() {
    let set = TypeSet::empty().with(TypeId(64));
    let is_there = set.has(TypeId(64));
    prove!(is_there);
}

/// The elements of a buffer have no column.
fn has_no_column() {
    let is_there = Kind::Buffer.has_column();
    prove!(!is_there);
}

#[test]
fn what_is_proved_also_runs(_rt: HostRuntime) {
    wraps();
    is_not_later_than_itself();
    is_later_than_never();
    keeps_no_number();
    changes_a_set();
    has_no_column();
}
