// The words of document 01 that every layer above uses: the two kinds of number that are never mixed up, and the refusals. A call's answer is a `Result` of what it
// gives or a refusal.
#![tactic(auto)]

ghost use Rattle.std.specs.Prelude.{◌≡◌};
ghost use Rattle.terms.specs.Refusals.{number_of};

// A stream's id. A call that wants one takes no `SeqNo`.
#[repr(C)]
#[derive(Clone, Copy, Debug, Default, PartialEq, Eq, PartialOrd, Ord)]
pub struct StreamId(pub u32);

// A packet's sequence number.
#[repr(C)]
#[derive(Clone, Copy, Debug, Default, PartialEq, Eq, PartialOrd, Ord)]
pub struct SeqNo(pub u32);

// Document 01's refusals, in the order of its table, whose own lines the comments are, and those that document 02 adds.
#[derive(Clone, Copy, Debug, PartialEq, Eq)]
pub enum Refusal {
    // packet shorter than 22, 22+4n or 22+4n+o
    PacketShort = 1,
    // packet read, or to be written, longer than 65,535
    PacketLong = 2,
    // option area ends inside a flagged option
    OptionCut = 3,
    // destination of another form
    DestinationForm = 4,
    // bit 11 without bit 5
    OfflineAlone = 5,
    // bit 11 with bit 5
    OfflineBlock = 6,
    // output shorter than needed
    OutputShort = 7,
    // more than 255 NACKs to write or to act on
    NacksMany = 8,
    // parts do not fit the flags
    PartsUnfit = 9,
    // slot or chunk size, slot count or store length wrong
    SizeWrong = 10,
    // state breaks the rules
    StateBroken = 11,
    // number, or the s to start after, is 4,294,967,295
    LastNumber = 12,
    // number below the next to take
    BelowNext = 13,
    // number minus next to take is 512 or more
    BeyondSpan = 14,
    // number already held
    AlreadyHeld = 15,
    // payload longer than a slot
    PayloadLong = 16,
    // nothing ready, nothing waiting, or no such rank in flight
    NothingThere = 17,
    // fewer free slots than packets
    SlotsFew = 18,
    // submitted length 0 or above 65,535
    SubmitLength = 19,
    // first number 0, or a submit's last number would be 4,294,967,295 or more
    NumbersSpent = 20,
    // submit while packets wait
    PacketsWait = 21,
    // waiting, but in flight is at least the window
    WindowFull = 22,
    // ack-through above the next number
    AckBeyond = 23,
    // clock below the last accepted clock, or above 10^15
    ClockWrong = 24,
    // timer unarmed or not due
    TimerEarly = 25,
    // mark of a recorded night wrong, or cut
    MarkWrong = 26,
    // version of a recorded night other than 1, or cut
    VersionOther = 27,
    // kind of a record unknown, or kind 0 repeated or not first
    KindUnknown = 28,
    // record cut, none at all, or data that does not fit its kind
    RecordCut = 29,
    // length on a serial line under 22, or above the lent buffer
    LengthUnfit = 30,
    // time to smooth above 4,294,967,295
    TimeLarge = 31,
}

impl Refusal {
    // The number that the documents give to the refusal.
    pub fn number(self) -> u32
        ensures { result ≡ number_of self }
    {
        self as u32
    }
}
