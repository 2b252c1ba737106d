// Budget accounts: CPU time per period, memory, and children carved out of both.
// After carv-budget/src/lib.rs, without TokenBucket. Each operation takes the account by value and
// hands it back beside its answer; specs/Account.antt says what each leaves and answers.
#![tactic(auto)]

ghost use Rattle.std.specs.Prelude.{◌≡◌, true, ◌+◌, ◌≤◌, leb, false};
ghost use Rattle.carv_budget.specs.declared.BudgetError.TheVariants.{Unsound};
ghost use Rattle.carv_budget.specs.Account.{number, number_of, figures, outcome, refused, sound, fresh, due, renew, free, spent, reserve, returnable, open_account, refill, charge_cpu, charge_memory, release_memory, carve_out, release_child, Lent};

// CPU figures are in nanoseconds, memory figures in bytes. The line is the last four.
#[derive(Clone, Copy, Debug, PartialEq, Eq, Default)]
pub struct Account {
    pub cpu_allowance: u64,
    pub memory_limit: u64,
    pub period_start: u64,
    pub cpu_left: u64,
    pub cpu_reserved: u64,
    pub memory_used: u64,
    pub memory_reserved: u64,
}

// Why a call is refused. The names are the Rust's, which answers false for CpuLimitReached.
// Unsound is added.
#[derive(Clone, Copy, Debug, PartialEq, Eq)]
pub enum BudgetError {
    Unsound,
    CpuBudgetExceedsPeriod,
    MemoryUnderflow,
    CpuLimitReached,
    MemoryLimitReached,
    CpuLimitExceeded,
    MemoryLimitExceeded,
    ReservationUnderflow,
}

impl BudgetError {
    // Document 01's number. A `match`: four refusals share one.
    pub fn number(self) -> u64
        ensures { result ≡ number self }
    {
        match self {
            BudgetError::Unsound => 1,
            BudgetError::CpuBudgetExceedsPeriod => 2,
            BudgetError::MemoryUnderflow => 11,
            BudgetError::CpuLimitReached => 12,
            BudgetError::MemoryLimitReached => 12,
            BudgetError::CpuLimitExceeded => 12,
            BudgetError::MemoryLimitExceeded => 12,
            BudgetError::ReservationUnderflow => 15,
        }
    }
}

// Document 01's number of an answer: 0 where the call is accepted.
pub fn number_of<T: Copy>(answer: Result<T, BudgetError>) -> u64
    ensures { result ≡ number_of answer }
{
    match answer {
        Ok(_) => 0,
        Err(error) => error.number(),
    }
}

// The account as the call leaves it, beside the answer: both are told in any case, since a refusal keeps the renewal.
#[derive(Clone, Copy, Debug, PartialEq, Eq)]
pub struct Outcome<T> {
    pub account: Account,
    pub answer: Result<T, BudgetError>,
}

impl<T: Copy> Outcome<T> {
    fn accepted(account: Account, value: T) -> Outcome<T>
        ensures { result ≡ outcome (Ok value) account }
    {
        Outcome {
            account,
            answer: Ok(value),
        }
    }

    fn refused(account: Account, error: BudgetError) -> Outcome<T>
        ensures { result ≡ outcome (Err error) account }
    {
        Outcome {
            account,
            answer: Err(error),
        }
    }

    // Document 01's number: 0 where the call is accepted.
    pub fn number(self) -> u64
        ensures { result ≡ number_of self.answer }
    {
        number_of(self.answer)
    }
}

// Whether a + b is at most max, with no sum that could wrap.
fn sum_within(a: u64, b: u64, max: u64) -> bool
    ensures { result ≡ leb (a + b) max }
{
    b <= max && a <= max - b
}

impl Account {
    // Nanoseconds of a period.
    pub const PERIOD: u64 = 10_000_000;

    // What stands where there is no account: the default, under the name that specs/Account.antt has for it, `blank`.
    pub const BLANK: Account = Account {
        cpu_allowance: 0,
        memory_limit: 0,
        period_start: 0,
        cpu_left: 0,
        cpu_reserved: 0,
        memory_used: 0,
        memory_reserved: 0,
    };

    // Its words, as they are stored and told.
    pub fn words(self) -> [u64; 7]
        ensures { result ≡ figures self }
    {
        [
            self.cpu_allowance,
            self.memory_limit,
            self.period_start,
            self.cpu_left,
            self.cpu_reserved,
            self.memory_used,
            self.memory_reserved,
        ]
    }

    // Question 1, for an account alone.
    #[tactic(auto, unfolding(crate::specs::Account::sound))]
    pub fn is_sound(self) -> bool
        ensures { result ≡ sound self }
    {
        sum_within(self.memory_used, self.memory_reserved, self.memory_limit)
            && sum_within(self.cpu_left, self.cpu_reserved, self.cpu_allowance)
            && self.cpu_allowance <= Account::PERIOD
    }

    #[tactic(auto, unfolding(crate::specs::Account::due))]
    fn is_due(self, time: u64) -> bool
        ensures { result ≡ due self time }
    {
        self.period_start <= time && Account::PERIOD <= time - self.period_start
    }

    // Three steps ask for a sound account by a clause: a type for it would be put on and off in each call.
    #[tactic(auto, unfolding(crate::specs::Account::sound, crate::specs::Account::due, crate::specs::Account::renew))]
    fn renewed(mut self, time: u64) -> Account
        requires { sound self ≡ true }
        ensures { result ≡ renew self time }
    {
        if self.is_due(time) {
            let elapsed = time - self.period_start;
            self.period_start = time - elapsed % Account::PERIOD;
            self.cpu_left = self.cpu_allowance - self.cpu_reserved;
        }
        self
    }

    #[tactic(auto, unfolding(crate::specs::Account::spent))]
    fn spent(mut self, ns: u64) -> Outcome<()>
        ensures { result ≡ spent self ns }
    {
        if ns > self.cpu_left {
            return Outcome::refused(self, BudgetError::CpuLimitReached);
        }
        self.cpu_left -= ns;
        Outcome::accepted(self, ())
    }

    // Memory neither used nor reserved.
    #[tactic(auto, unfolding(crate::specs::Account::sound))]
    pub fn free(self) -> u64
        requires { sound self ≡ true }
        ensures { result ≡ free self }
    {
        self.memory_limit - self.memory_reserved - self.memory_used
    }

    // An account with its whole allowance left, and nothing used or reserved.
    fn fresh(cpu: u64, memory: u64, start: u64) -> Account
        ensures { result ≡ fresh cpu memory start }
    {
        Account {
            cpu_allowance: cpu,
            memory_limit: memory,
            period_start: start,
            cpu_left: cpu,
            ..Account::BLANK
        }
    }

    #[tactic(auto, unfolding(crate::specs::Account::sound))]
    fn reserve(mut self, cpu: u64, memory: u64) -> Account
        requires { (sound self ≡ true) × (cpu ≤ self.cpu_left) × (memory ≤ free self) }
        ensures { result ≡ reserve self cpu memory }
    {
        self.cpu_left -= cpu;
        self.cpu_reserved += cpu;
        self.memory_reserved += memory;
        self
    }

    // Question 15, less whose child it is, which an account can't see.
    #[tactic(auto, unfolding(crate::specs::Account::returnable))]
    fn can_return(self, child: Account) -> bool
        ensures { result ≡ returnable self child }
    {
        child.cpu_reserved == 0
            && child.memory_reserved == 0
            && child.memory_used == 0
            && child.cpu_allowance <= self.cpu_reserved
            && child.memory_limit <= self.memory_reserved
    }

    // An opening: the whole allowance is left at time, and nothing is used or reserved.
    pub fn new(cpu: u64, memory: u64, time: u64) -> Result<Account, BudgetError>
        ensures { result ≡ open_account cpu memory time }
    {
        if cpu > Account::PERIOD {
            return Err(BudgetError::CpuBudgetExceedsPeriod);
        }
        Ok(Account::fresh(cpu, memory, time))
    }

    // Question 1 in front of a call: the step is taken of a sound account alone.
    fn if_sound<T: Copy, F: FnOnce(Account) -> Outcome<T>>(self, step: F) -> Outcome<T>
        requires { sound self ≡ true → F.pre step self }
        ensures stepped { sound self ≡ true → F.post step self result }
        ensures unsound { sound self ≡ false → result ≡ refused Unsound self }
    {
        if !self.is_sound() {
            return Outcome::refused(self, BudgetError::Unsound);
        }
        step(self)
    }

    // Renews the CPU time left where a period has passed, and says whether one has.
    pub fn refill(self, time: u64) -> Outcome<bool>
        ensures { result ≡ refill self time }
    {
        self.if_sound(|account| Outcome::accepted(account.renewed(time), account.is_due(time)))
    }

    // Renews, then takes ns of the CPU time left. A refusal keeps the renewal.
    pub fn charge_cpu(self, ns: u64, time: u64) -> Outcome<()>
        ensures { result ≡ charge_cpu self ns time }
    {
        self.if_sound(|account| account.renewed(time).spent(ns))
    }

    #[tactic(auto, unfolding(crate::specs::Account::sound))]
    pub fn charge_memory(self, bytes: u64) -> Outcome<()>
        ensures { result ≡ charge_memory self bytes }
    {
        self.if_sound(|mut account| {
            if bytes > account.free() {
                return Outcome::refused(account, BudgetError::MemoryLimitReached);
            }
            account.memory_used += bytes;
            Outcome::accepted(account, ())
        })
    }

    pub fn release_memory(self, bytes: u64) -> Outcome<()>
        ensures { result ≡ release_memory self bytes }
    {
        self.if_sound(|mut account| {
            if bytes > account.memory_used {
                return Outcome::refused(account, BudgetError::MemoryUnderflow);
            }
            account.memory_used -= bytes;
            Outcome::accepted(account, ())
        })
    }

    // Renews, then reserves a child's share. The child has this account's start. A refusal keeps
    // the renewal.
    #[tactic(auto, using(crate::proofs::Laws::Account::renew_sound), unfolding(crate::specs::Account::carved))]
    pub fn carve_out(self, cpu: u64, memory: u64, time: u64) -> Outcome<Account>
        ensures { result ≡ carve_out self cpu memory time }
    {
        self.if_sound(|account| {
            let renewed = account.renewed(time);
            if cpu > renewed.cpu_left {
                return Outcome::refused(renewed, BudgetError::CpuLimitExceeded);
            }
            if memory > renewed.free() {
                return Outcome::refused(renewed, BudgetError::MemoryLimitExceeded);
            }
            Outcome::accepted(
                renewed.reserve(cpu, memory),
                Account::fresh(cpu, memory, renewed.period_start),
            )
        })
    }

    // Takes a child's share back. The CPU time left does not move until the next renewal.
    #[tactic(auto, unfolding(crate::specs::Account::returnable))]
    pub fn release_child(self, child: Account) -> Outcome<()>
        ensures { result ≡ release_child self child }
    {
        self.if_sound(|mut account| {
            if !child.is_sound() {
                return Outcome::refused(account, BudgetError::Unsound);
            }
            if !account.can_return(child) {
                return Outcome::refused(account, BudgetError::ReservationUnderflow);
            }
            account.cpu_reserved -= child.cpu_allowance;
            account.memory_reserved -= child.memory_limit;
            Outcome::accepted(account, ())
        })
    }
}

// Document 01 asks for these two beside the methods, as thin functions over them: "renewing and charging one account also exist on
// an account lent for change".

// Renewing an account that is lent for change.
pub fn refill_lent(account: &mut Account, time: u64) -> Result<bool, BudgetError>
    ensures { Lent (refill account.old time) account.new result }
{
    let renewed = account.refill(time);
    *account = renewed.account;
    renewed.answer
}

// Charging CPU time to an account that is lent for change.
pub fn charge_cpu_lent(account: &mut Account, ns: u64, time: u64) -> Result<(), BudgetError>
    ensures { Lent (charge_cpu account.old ns time) account.new result }
{
    let charged = account.charge_cpu(ns, time);
    *account = charged.account;
    charged.answer
}
