// The types of the bus and its chips. Letters are the registers' of the paper: E, B, M, P, A, I, O, AB, BF.
#![tactic(auto)]

// The parts by their numbers (paper 02, request 5).
pub const PCF8532: u8 = 0;

pub const PCA85133: u8 = 1;

// What a mode-set carries, as one record (sheet 003, table 6).
#[derive(Clone, Copy)]
pub struct Settings {
    pub e: u8,
    pub b: u8,
    pub m: u8,
}

// The commands of sheet 003, table 5, with the one pointer command of sheet 002, table 11; and the bytes that are none.
#[derive(Clone, Copy)]
pub enum Command {
    PointerHigh(u8),
    PointerLow(u8),
    Pointer(u8),
    ModeSet(Settings),
    DeviceSelect(u8),
    FrequencyCtrl,
    BlinkSelect { ab: u8, bf: u8 },
    BankSelect { i: u8, o: u8 },
    Undefined,
}

// What a cut data byte makes unknown until its command comes: 1 where the number is unknown (paper 02, request 8).
#[derive(Clone, Copy)]
pub struct Marks {
    pub high: u8,
    pub low: u8,
    pub device: u8,
}

#[derive(Clone, Copy)]
pub struct Registers {
    pub e: u8,
    pub b: u8,
    pub m: u8,
    pub p: usize,
    pub a: usize,
    pub i: u8,
    pub o: u8,
    pub ab: u8,
    pub bf: u8,
    pub unknown: Marks,
}

// A register set a group.
#[derive(Clone, Copy)]
pub struct Both {
    pub zero: Registers,
    pub one: Registers,
}

// The chips in group 0 and in group 1.
#[derive(Clone, Copy)]
pub struct Chips {
    pub zero: u8,
    pub one: u8,
}

// Why a call is refused; what is held is the place.
#[derive(Clone, Copy)]
pub enum Refusal {
    EmptyTransfer,
    LongTransfer,
    ChipCount,
    RamLength,
    RamByte(usize),
    Register,
    UndefinedCommand(usize),
    GroupOrPhase,
    OutputLength,
    ManyChips,
    ChipField(usize),
    LogHead,
    CutRecord(usize),
    LongLog,
    NoSymbol(usize),
    UnknownPart,
    StrayBits(usize),
    UnknownPlace(usize),
    BitCount,
    ShortBody(usize),
    RecordForm(usize),
    Checksum(usize),
    RecordType(usize),
    AddressOutside(usize),
    AddressTwice(usize),
    AddressMissing(usize),
    NoEnd,
}

#[derive(Clone, Copy)]
pub struct PowerOn {
    pub check: Result<(), Refusal>,
    pub registers: Both,
}

// What follows a control byte: commands or display data, by its RS.
#[derive(Clone, Copy)]
pub enum Kind {
    Command,
    Data,
}

// What the next byte of a transfer is: a control byte; the one byte after a control byte with Co = 1; or one of all that are left.
#[derive(Clone, Copy)]
pub enum Expect {
    Control,
    One(Kind),
    All(Kind),
}

// Stored and discarded bits do not stand side by side, so that they are not read as one word right after they are written as two.
#[derive(Clone, Copy)]
pub struct Counts {
    pub stored: usize,
    pub acknowledged: usize,
    pub discarded: usize,
}

// What is taken of a transfer: its counts, and the subaddress of the chip that acknowledged its last data byte, if one did.
#[derive(Clone, Copy)]
pub struct Taken {
    pub counts: Counts,
    pub last: Option<usize>,
}

#[derive(Clone, Copy)]
pub struct Transferred {
    pub answer: Result<Taken, Refusal>,
    pub registers: Both,
}

// What a rescue keeps of a log, drops, and where the tear is.
#[derive(Clone, Copy)]
pub struct Kept {
    pub records: usize,
    pub bytes: usize,
    pub dropped: usize,
    pub tear: usize,
}

// A chip of the plain account, with its own columns, identity and registers. A part with fewer columns has the first of them.
#[derive(Clone, Copy)]
pub struct Chip {
    pub columns: [u8; 160],
    pub sa0: u8,
    pub subaddress: u8,
    pub registers: Registers,
}

#[derive(Clone, Copy)]
pub struct ChipPowerOn {
    pub check: Result<(), Refusal>,
    pub chip: Chip,
}

// The plain account reports the bytes acknowledged, and who acknowledged the last data byte.
#[derive(Clone, Copy)]
pub struct Acknowledged {
    pub bytes: usize,
    pub last: Option<usize>,
}
