//! The command of a packet.

/// A packet's command (GDB's documentation, "Packets", "General Query Packets", "vCont packet",
/// "Host I/O Packets").
/// Texts are parts of the packet's data. A text of hexadecimal digits has an even number of them,
/// of either case, and `read_hex` or `read_register` reads it; other texts are as they came.
#[derive(Clone, Copy)]
pub enum Command<'a> {
    /// `!`: the program can be run again, also after its end.
    StartExtendedMode,
    /// `?`: why the program has stopped.
    StopReason,
    /// `g`: all registers.
    ReadRegisters,
    /// `G XX..`: all registers, in digits.
    WriteRegisters {
        digits: &'a [u8],
    },
    /// `p N`: one register.
    ReadRegister {
        number: u64,
    },
    /// `P N=XX..`: one register, in digits.
    WriteRegister {
        number: u64,
        digits: &'a [u8],
    },
    /// `m ADDRESS,LENGTH`: memory, to be answered in digits.
    ReadMemory {
        address: u64,
        len: u64,
    },
    /// `x ADDRESS,LENGTH`: memory, to be answered in bytes.
    ReadBytes {
        address: u64,
        len: u64,
    },
    /// `M ADDRESS,LENGTH:XX..`: memory, in digits.
    WriteMemory {
        address: u64,
        len: u64,
        digits: &'a [u8],
    },
    /// `X ADDRESS,LENGTH:BYTES`: memory, in bytes.
    WriteBytes {
        address: u64,
        len: u64,
        bytes: &'a [u8],
    },
    /// `c`, `s`, `C SIGNAL`, `S SIGNAL`, each with the address to go on at or without one.
    Resume {
        action: Action,
        address: Option<u64>,
    },
    /// `vCont;ACTION[:THREAD]..`: the first action, and its thread. The others have been read and
    /// are left out.
    ResumeThread {
        action: Action,
        thread: Option<Thread>,
    },
    /// `vCont?`: which actions there are.
    ResumeActions,
    /// `bs`: one step back.
    StepBack,
    /// `bc`: back to a breakpoint, a watched access or the start.
    ContinueBack,
    /// `Z KIND,ADDRESS,SIZE`.
    InsertPoint {
        kind: Point,
        address: u64,
        size: u64,
    },
    /// `z KIND,ADDRESS,SIZE`.
    RemovePoint {
        kind: Point,
        address: u64,
        size: u64,
    },
    /// `H c THREAD` where `resumes`, for `c` and `s`; `H g THREAD` for all others.
    SelectThread {
        resumes: bool,
        thread: Thread,
    },
    /// `T THREAD`: whether it lives.
    IsThreadAlive {
        thread: Thread,
    },
    /// `D` or `D;PROCESS`.
    Detach {
        process: Option<u64>,
    },
    /// `k`.
    Kill,
    /// `vKill;PROCESS`.
    KillProcess {
        process: u64,
    },
    /// `vRun;FILE[;ARGUMENT]..`: run the program from its start. The words are left out.
    Run,
    /// `vMustReplyEmpty`: answered as an unknown packet is.
    MustReplyEmpty,
    /// `qSupported[:FEATURE;FEATURE..]`.
    Supported {
        features: &'a [u8],
    },
    /// `qXfer:OBJECT:read:ANNEX:OFFSET,LENGTH`.
    ReadObject {
        object: &'a [u8],
        annex: &'a [u8],
        offset: u64,
        len: u64,
    },
    /// `vFile:OPERATION:..`.
    File(FileCall<'a>),
    /// `qMemTags:ADDRESS,LENGTH:KIND`.
    ReadTags {
        address: u64,
        len: u64,
        kind: u64,
    },
    /// `QMemTags:ADDRESS,LENGTH:KIND:XX..`: one tag or more, in digits.
    WriteTags {
        address: u64,
        len: u64,
        kind: u64,
        digits: &'a [u8],
    },
    /// `qRcmd,XX..`: a user's command, in digits.
    Monitor {
        digits: &'a [u8],
    },
    /// `QStartNoAckMode`.
    StartNoAckMode,
    /// `qAttached` or `qAttached:PROCESS`: whether the program ran before GDB came.
    IsAttached {
        process: Option<u64>,
    },
    /// `qC`: the current thread.
    CurrentThread,
    /// `qfThreadInfo`: the first threads.
    FirstThreads,
    /// `qsThreadInfo`: the threads after those.
    NextThreads,
    /// `qSymbol::` and its like: GDB can look symbols up.
    Symbols,
    /// `qOffsets`: where the sections lie.
    Offsets,
    /// A packet that is not known: answered by an empty packet.
    Unknown,
    /// A packet that is known and has not its form: answered by `E01`.
    Malformed,
}

/// How a program is resumed. Signals have GDB's numbers.
#[derive(Clone, Copy)]
pub enum Action {
    /// `c`, or `C` with a signal.
    Continue { signal: Option<u8> },
    /// `s`, or `S` with a signal.
    Step { signal: Option<u8> },
    /// `r START,END`: steps as long as the program counter is from start on and below end.
    StepRange { start: u64, end: u64 },
    /// `t`.
    Stop,
}

/// A breakpoint or a watchpoint.
#[derive(Clone, Copy)]
pub enum Point {
    /// 0.
    SoftwareBreakpoint,
    /// 1.
    HardwareBreakpoint,
    /// 2.
    WriteWatchpoint,
    /// 3.
    ReadWatchpoint,
    /// 4.
    AccessWatchpoint,
}

/// A process or a thread.
#[derive(Clone, Copy)]
pub enum Id {
    /// -1.
    All,
    /// 0.
    Any,
    /// Another number.
    One(u64),
}

/// A thread: `THREAD`, `pPROCESS`, which means all of its threads, or `pPROCESS.THREAD`.
#[derive(Clone, Copy)]
pub struct Thread {
    pub process: Option<Id>,
    pub thread: Id,
}

/// An operation on a file.
#[derive(Clone, Copy)]
pub enum FileCall<'a> {
    /// `setfs:PROCESS`: whose files the later operations mean.
    SetFilesystem {
        process: u64,
    },
    /// `open:PATH,FLAGS,MODE`: the path in digits.
    Open {
        path: &'a [u8],
        flags: u64,
        mode: u64,
    },
    /// `close:DESCRIPTOR`.
    Close {
        descriptor: u64,
    },
    /// `pread:DESCRIPTOR,COUNT,OFFSET`.
    Read {
        descriptor: u64,
        count: u64,
        offset: u64,
    },
    /// `fstat:DESCRIPTOR`.
    Status {
        descriptor: u64,
    },
    /// `readlink:PATH`: the path in digits.
    ReadLink {
        path: &'a [u8],
    },
}
