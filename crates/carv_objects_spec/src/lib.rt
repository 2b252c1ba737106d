// What a registry holds: entries under rising ids, each of a kind. The definitions of every call on it, and the theorems on them, stand in
// specs/; carv_objects has the code. After kernel/src/objects.rs and the kinds of carv-abi.
#![tactic(auto)]

mod kind;

use carv_budget::Account;
pub use kind::Kind;

// What stands under an id. An entry that is no budget has a blank account. The account stands beside the kind and not in it: codes, bytes and
// questions 4 and 13 are asked of a kind where there is no account, and rows have one width.
#[derive(Clone, Copy, Debug, PartialEq, Eq)]
pub struct Entry {
    pub kind: Kind,
    pub payer: u64,
    pub charge: u64,
    pub account: Account,
}

// A budget with all below it, summed: memory used, memory free, CPU left.
#[derive(Clone, Copy, Debug, Default, PartialEq, Eq)]
pub struct Totals {
    pub memory_used: u64,
    pub memory_free: u64,
    pub cpu_left: u64,
}
