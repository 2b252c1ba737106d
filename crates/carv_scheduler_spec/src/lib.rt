// What a board holds beside the registry: thread records and logged ends. The definitions of every call on it, and the theorems on
// them, stand in specs/; carv_scheduler has the code. After kernel/src/scheduler.rs.
#![tactic(auto)]

ghost use Rattle.std.specs.Prelude.{◌≡◌};
ghost use Rattle.carv_scheduler_spec.specs.Scheduler.{wait_listed, wait, kind_of, number_of, wait_in, cause_listed, cause_of};
ghost use Rattle.carv_scheduler_spec.specs.Codes.{is_word, state_word, kind_word, number_word, thread_words, cause_word, NamedWait, NamedCause};

// What a blocked thread waits for.
#[derive(Clone, Copy, Debug, PartialEq, Eq)]
pub enum Wait {
    // A receiver on this endpoint.
    Send(u64),
    // A sender on this endpoint.
    Recv(u64),
    // The reply from this server thread.
    Reply(u64),
    // A signal on this notification.
    Notification(u64),
    // The tick to reach.
    Sleep(u64),
}

impl Wait {
    // Is it the code of a kind? By range, as `Kind::is_listed`.
    pub fn is_listed(kind: u64) -> bool
        ensures { result ≡ wait_listed kind }
    {
        matches!(kind, 1..=5)
    }

    // The wait of the kind that a code names, with this number. No `TryFrom`: it takes two words.
    pub fn from_code(kind: u64, number: u64) -> Option<Wait>
        ensures { NamedWait kind number result }
    {
        match kind {
            1 => Some(Wait::Send(number)),
            2 => Some(Wait::Recv(number)),
            3 => Some(Wait::Reply(number)),
            4 => Some(Wait::Notification(number)),
            5 => Some(Wait::Sleep(number)),
            _ => None,
        }
    }

    // The same of a code that is known to be listed. Another reads as a send, which no tick wakes.
    pub fn of_code(kind: u64, number: u64) -> Wait
        ensures { result ≡ wait kind number }
    {
        Wait::from_code(kind, number).unwrap_or(Wait::Send(number))
    }

    // The code of its kind. A `match`: a variant with a number can't be cast.
    pub fn kind(self) -> u64
        ensures { result ≡ kind_of self }
    {
        match self {
            Wait::Send(_) => 1,
            Wait::Recv(_) => 2,
            Wait::Reply(_) => 3,
            Wait::Notification(_) => 4,
            Wait::Sleep(_) => 5,
        }
    }

    pub fn number(self) -> u64
        ensures { result ≡ number_of self }
    {
        match self {
            Wait::Send(number)
            | Wait::Recv(number)
            | Wait::Reply(number)
            | Wait::Notification(number)
            | Wait::Sleep(number) => number,
        }
    }
}

#[derive(Clone, Copy, Debug, PartialEq, Eq)]
pub enum State {
    // Created but not started.
    Inactive,
    // In the ready queue, or idle.
    Ready,
    // On the CPU.
    Running,
    Blocked(Wait),
    // Killed while it was current; it goes once another thread runs.
    Dead,
}

impl State {
    // The code of each state. Words are read and written with them, and question 1 tests words before there is a State.
    pub const INACTIVE: u64 = 1;

    pub const READY: u64 = 2;

    pub const RUNNING: u64 = 3;

    pub const BLOCKED: u64 = 4;

    pub const DEAD: u64 = 5;

    // The first of the three words that a state is told by; no `From`, since it says no wait.
    pub fn code(self) -> u64
        ensures { result ≡ state_word self }
    {
        match self {
            State::Inactive => State::INACTIVE,
            State::Ready => State::READY,
            State::Running => State::RUNNING,
            State::Blocked(_) => State::BLOCKED,
            State::Dead => State::DEAD,
        }
    }

    // The wait of a Blocked thread.
    pub fn wait(self) -> Option<Wait>
        ensures { result ≡ wait_in self }
    {
        match self {
            State::Blocked(wait) => Some(wait),
            _ => None,
        }
    }

    // The code of its wait's kind, and the wait's number, or 0 and 0.
    pub fn wait_kind(self) -> u64
        ensures { result ≡ kind_word self }
    {
        self.wait().map_or(0, Wait::kind)
    }

    pub fn wait_number(self) -> u64
        ensures { result ≡ number_word self }
    {
        self.wait().map_or(0, Wait::number)
    }
}

// Where a started thread runs: address space, capability space and page-table root.
#[derive(Clone, Copy, Debug, Default, PartialEq, Eq)]
pub struct Spaces {
    pub space: u64,
    pub cspace: u64,
    pub root: u64,
}

// The seven words of UserContext.
#[derive(Clone, Copy, Debug, Default, PartialEq, Eq)]
pub struct Context {
    pub rip: u64,
    pub rsp: u64,
    pub rflags: u64,
    pub rdi: u64,
    pub rsi: u64,
    pub cs: u64,
    pub ss: u64,
}

// The three result words that a blocked system call completes with. They have no names of their own in document 01.
#[derive(Clone, Copy, Debug, Default, PartialEq, Eq)]
pub struct Results {
    pub first: u64,
    pub second: u64,
    pub third: u64,
}

// A thread record. The budget is an id, and the ticks are those that it ran for.
#[derive(Clone, Copy, Debug, PartialEq, Eq)]
pub struct Thread {
    pub state: State,
    pub budget: Option<u64>,
    pub spaces: Option<Spaces>,
    pub context: Context,
    pub results: Results,
    pub ticks: u64,
}

impl Thread {
    // Its words, as they are stored and told. What is not there is 0.
    pub fn words(self) -> [u64; 20]
        ensures { result ≡ thread_words self }
    {
        let Thread {
            state,
            budget,
            spaces,
            context,
            results,
            ticks,
        } = self;
        let said = spaces.unwrap_or_default();
        [
            state.code(),
            state.wait_kind(),
            state.wait_number(),
            is_word(budget),
            budget.unwrap_or(0),
            is_word(spaces),
            said.space,
            said.cspace,
            said.root,
            context.rip,
            context.rsp,
            context.rflags,
            context.rdi,
            context.rsi,
            context.cs,
            context.ss,
            results.first,
            results.second,
            results.third,
            ticks,
        ]
    }
}

// The word that says whether it is there.
pub fn is_word<T: Copy>(o: Option<T>) -> u64
    ensures { result ≡ is_word o }
{
    u64::from(o.is_some())
}

// Why a thread ended. The codes are document 01's. Beside `Kind`, whose four functions for codes have these names: a trait of both would have
// each written out all the same, and its laws stated for each.
#[derive(Clone, Copy, Debug, PartialEq, Eq)]
pub enum Cause {
    Destroyed = 1,
    Faulted = 2,
}

impl Cause {
    // Is it the code of a cause? By range, as `Kind::is_listed`.
    pub fn is_listed(n: u64) -> bool
        ensures { result ≡ cause_listed n }
    {
        matches!(n, 1..=2)
    }

    // The cause that a code names, in the form of `Kind::from_code`.
    pub fn from_code(n: u64) -> Option<Cause>
        ensures { NamedCause n result }
    {
        match n {
            1 => Some(Cause::Destroyed),
            2 => Some(Cause::Faulted),
            _ => None,
        }
    }

    // The same of a code that is known to be listed. Another reads as the last cause.
    pub fn of_code(n: u64) -> Cause
        ensures { result ≡ cause_of n }
    {
        Cause::from_code(n).unwrap_or(Cause::Faulted)
    }

    // The way back from `from_code`, a method as that is.
    pub fn code(self) -> u64
        ensures { result ≡ cause_word self }
    {
        self as u64
    }
}

// A thread's end. The board's log holds those whose cause is a `Cause`; a lent run may say it as a code, or otherwise.
#[derive(Clone, Copy, Debug, PartialEq, Eq)]
pub struct Exit<C> {
    pub thread: u64,
    pub cause: C,
}
