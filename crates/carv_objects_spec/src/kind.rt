// The kinds of objects, of carv-abi, with the code of each and the bytes that it is charged.
ghost use Rattle.std.specs.Prelude.{◌≡◌};
ghost use Rattle.carv_objects_spec.specs.Kinds.{code, listed, kind_of, bytes_of, creatable, needs_backing, is_budget_kind, Named};

// The discriminants are the codes.
#[derive(Clone, Copy, Debug, PartialEq, Eq)]
pub enum Kind {
    Thread = 1,
    AddressSpace = 2,
    Frame = 3,
    Endpoint = 4,
    Notification = 5,
    Budget = 6,
    Reply = 7,
    Irq = 8,
    IrqControl = 9,
}

impl Kind {
    // The bytes that an object of each kind is charged, by the names of kernel/src/objects.rs, where IRQ_BYTES serves both kinds of interrupts.
    pub const THREAD_BYTES: u64 = 33_792;

    pub const ADDRESS_SPACE_BYTES: u64 = 16_384;

    pub const FRAME_BYTES: u64 = 4_096;

    pub const ENDPOINT_BYTES: u64 = 128;

    pub const NOTIFICATION_BYTES: u64 = 64;

    pub const BUDGET_BYTES: u64 = 128;

    pub const REPLY_BYTES: u64 = 64;

    pub const IRQ_BYTES: u64 = 64;

    pub const IRQ_CONTROL_BYTES: u64 = 64;

    // Is it the code of a kind? By range: `from_code(n).is_some()` is no plainer, and question 1 asks it of each row.
    pub fn is_listed(n: u64) -> bool
        ensures { result ≡ listed n }
    {
        matches!(n, 1..=9)
    }

    // The kind that a code names. An `Option`, as the Rust's `from_raw`: `TryFrom`, here and for `Cause`, would need an error type and its
    // `From` for `Refusal`, for one word at three callers.
    pub fn from_code(n: u64) -> Option<Kind>
        ensures { Named n result }
    {
        match n {
            1 => Some(Kind::Thread),
            2 => Some(Kind::AddressSpace),
            3 => Some(Kind::Frame),
            4 => Some(Kind::Endpoint),
            5 => Some(Kind::Notification),
            6 => Some(Kind::Budget),
            7 => Some(Kind::Reply),
            8 => Some(Kind::Irq),
            9 => Some(Kind::IrqControl),
            _ => None,
        }
    }

    // The same of a code that is known to be listed. Another reads as the last kind.
    pub fn of_code(n: u64) -> Kind
        ensures { result ≡ kind_of n }
    {
        Kind::from_code(n).unwrap_or(Kind::IrqControl)
    }

    // The way back from `from_code`, a method as that is.
    pub fn code(self) -> u64
        ensures { result ≡ code self }
    {
        self as u64
    }

    // The bytes that an object of this kind is charged.
    pub fn bytes(self) -> u64
        ensures { result ≡ bytes_of self }
    {
        match self {
            Kind::Thread => Kind::THREAD_BYTES,
            Kind::AddressSpace => Kind::ADDRESS_SPACE_BYTES,
            Kind::Frame => Kind::FRAME_BYTES,
            Kind::Endpoint => Kind::ENDPOINT_BYTES,
            Kind::Notification => Kind::NOTIFICATION_BYTES,
            Kind::Budget => Kind::BUDGET_BYTES,
            Kind::Reply => Kind::REPLY_BYTES,
            Kind::Irq => Kind::IRQ_BYTES,
            Kind::IrqControl => Kind::IRQ_CONTROL_BYTES,
        }
    }

    // By pattern, as the two questions below.
    pub fn is_budget(self) -> bool
        ensures { result ≡ is_budget_kind self }
    {
        matches!(self, Kind::Budget)
    }

    // Can `create` make one? Threads, budgets and interrupts are made by their owners.
    pub fn is_creatable(self) -> bool
        ensures { result ≡ creatable self }
    {
        matches!(
            self,
            Kind::AddressSpace | Kind::Frame | Kind::Endpoint | Kind::Notification | Kind::Reply
        )
    }

    // Does it stand on memory of its own?
    pub fn needs_backing(self) -> bool
        ensures { result ≡ needs_backing self }
    {
        matches!(self, Kind::AddressSpace | Kind::Frame)
    }
}
