// The sender's numbers. Entries are counted from 0. A step that takes `&mut self` says that the terms stay, since it could change any field.
ghost use Rattle.std.specs.Prelude.{◌+◌, ◌≤◌, if◌then◌else◌};

use wire::Terms;

#[derive(Clone, Copy)]
pub struct Sender {
    pub terms: Terms,
    // how many entries were accepted
    pub ng: u64,
    // how many of them were sent at least once
    pub ns: u64,
    // how many of them were heard of
    pub na: u64,
    // how many entries past na the receiver has room for
    pub sw: u32,
    // ticks since the last first send, at most the gap
    pub rest: u32,
    // whether the end mark was accepted; it goes with no one value: ns and na go on after it
    pub sealed: bool,
    ghost order: { (na ≤ ns) × (ns ≤ ng) × (ng ≤ na + terms.send_window) },
    ghost count: { ng ≤ (if sealed then 1000001 else 1000000) },
    ghost bounds: { (sw ≤ terms.send_window) × (rest ≤ terms.gap) },
}
