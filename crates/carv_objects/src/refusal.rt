// Why a call is refused: each is the "no" to a question, and has document 01's number. include/carv.h and carv_objects_spec have the same names.
ghost use Rattle.std.specs.Prelude.{◌≡◌};
ghost use Rattle.carv_objects.specs.Refusal.{refusal_number};

#[derive(Clone, Copy, Debug, PartialEq, Eq)]
pub enum Refusal {
    // Are lent areas of their length, and is the state sound?
    Unsound = 1,
    // Is an opening's CPU share at most a period?
    Share = 2,
    // Is the tick at most the last one?
    Tick = 3,
    // Is each kind, wait and cause listed, and an inserted kind no budget?
    Code = 4,
    // Is a new thread's id free, and a killed thread not idle?
    Id = 5,
    // Has the table a place, and is there an id to give?
    Full = 6,
    // Is the object, payer or thread there, and a budget where one is asked for?
    Missing = 7,
    // Is a started thread Inactive, a woken one Blocked, a blocking one Running and not idle?
    State = 8,
    // Is the removed object not the root?
    Root = 9,
    // Does a removed budget pay for nothing?
    Pays = 10,
    // Is an uncharge at most the recorded charge?
    Charge = 11,
    // Can the payer cover the charge, and what is carved out?
    Limit = 12,
    // Can `create` make the kind?
    Kind = 13,
    // Is the backing there?
    Backing = 14,
}

impl Refusal {
    // Document 01's number. No `From`: `u64::from(refusal)` is no plainer.
    pub fn number(self) -> u64
        ensures { result ≡ refusal_number self }
    {
        self as u64
    }
}
