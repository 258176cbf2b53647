// Stores that wait for the load before which they are due.
ghost use Rattle.std.specs.Prelude.{◌≡◌, ◌+◌, ◌*◌, ◌/◌, ◌%◌, ◌<◌, ◌≤◌, length, vec_capacity, IfSome, IsNone};
ghost use Rattle.desk_laws.specs.Frames.{settled_words, still_waiting, write, write_words};
ghost use Rattle.gui_wire.specs.Words.{all_words};
ghost use Rattle.desk_laws.specs.declared.limits.TheConstants.{PAGE_BYTES, PAGE_WORDS};
ghost use Rattle.frame_pool.specs.Regions.{AllLieIn, LiesIn, IsFirst, NotBefore, due_at};

use crate::{Glass, Place};
use arrayvec::ArrayVec;
use std::marker::Model;

// A store, and the number of loads after which it is due.
#[derive(Drop)]
pub(crate) struct Store {
    pub(crate) due: u64,
    pub(crate) page: u32,
    pub(crate) offset: u32,
    pub(crate) bytes: ArrayVec<u8, 4096>,
}

impl Model for Store {
    ghost use Rattle.desk_laws.specs.Frames.{Waiting};

    ghost Value = { Waiting };

    ghost view = { λ s. record { due = s.due; page = s.page; offset = s.offset; bytes = s.bytes.items } };
}

// Writes the bytes to a page, from the offset on.
pub(crate) fn put(glass: &mut Glass, page: u32, offset: u32, bytes: &[u8])
    requires page { PAGE_WORDS * page + PAGE_WORDS ≤ length glass.old }
    requires offset { offset % 4 ≡ 0 }
    requires whole { length bytes.now % 4 ≡ 0 }
    requires end { offset + length bytes.now ≤ PAGE_BYTES }
    ensures words { glass.new ≡ write_words glass.old (PAGE_WORDS * page + offset / 4) (all_words bytes.now) }
    ensures len { length glass.new ≡ length glass.old }
{
    let word = offset / 4;
    glass.store_run(Place { page, word }, bytes);
}

// The load at which a store is due.
fn due_of(waiting: &[Store], k: usize) -> u64
    requires { k < length waiting.now }
    ensures { result ≡ due_at waiting.now k }
{
    let store = &waiting[k];
    store.due
}

// Which of the stores is due first; of those that are due together the one that came first.
fn first_of(waiting: &[Store]) -> usize
    requires { 0 < length waiting.now }
    ensures { IsFirst waiting.now result }
{
    let mut first = 0;
    for k in 1..waiting.len() {
        if due_of(waiting, k) < due_of(waiting, first) {
            first = k;
        }
    }
    first
}

// The store that is to be written next once there were so many loads, if one is due.
fn due_first(waiting: &[Store], loads: u64) -> Option<usize>
    ensures some { IfSome result (λ at. IsFirst waiting.now at × (due_at waiting.now at ≤ loads)) }
    ensures none { IsNone result → NotBefore (loads + 1) waiting.now }
{
    if waiting.is_empty() {
        return None;
    }
    let first = first_of(waiting);
    if due_of(waiting, first) > loads {
        return None;
    }
    Some(first)
}

// How many loads, of at most so many, come before the next store is due, where there were so many loads and
// none is due.
pub(crate) fn quiet_loads(waiting: &[Store], loads: u64, most: usize) -> usize
    requires some { 0 < most }
    requires settled { NotBefore (loads + 1) waiting.now }
    ensures some { 0 < result }
    ensures few { result ≤ most }
    ensures quiet { NotBefore (loads + result) waiting.now }
{
    if waiting.is_empty() {
        return most;
    }
    let due = due_of(waiting, first_of(waiting));
    most.min((due - loads) as usize)
}

// Writes the stores that are due once there were so many loads, and keeps the others.
pub(crate) fn settle(glass: &mut Glass, waiting: &mut Vec<Store>, loads: u64)
    requires { AllLieIn (length glass.old) waiting.old.items }
    ensures words { glass.new ≡ settled_words glass.old loads waiting.old.items }
    ensures waiting { waiting.new.items ≡ still_waiting loads waiting.old.items }
    ensures settled { NotBefore (loads + 1) waiting.new.items }
    ensures lie { AllLieIn (length glass.new) waiting.new.items }
    ensures few { length waiting.new.items ≤ length waiting.old.items }
    ensures len { length glass.new ≡ length glass.old }
    ensures capacity { vec_capacity waiting.new ≡ vec_capacity waiting.old }
{
    while let Some(at) = due_first(waiting, loads) {
        let store = waiting.remove(at);
        put_store(glass, &store);
    }
}

// Writes a store.
fn put_store(glass: &mut Glass, store: &Store)
    requires { LiesIn (length glass.old) store.now }
    ensures words { glass.new ≡ write glass.old store.now }
    ensures len { length glass.new ≡ length glass.old }
{
    put(glass, store.page, store.offset, &store.bytes);
}
