//! Trace lines.

ghost use Rattle.std.specs.Prelude.{◌≡◌, ◌≤◌, ◌+◌, ◌++◌, codes, decimal, length, OnOk, OnErr};
ghost use Rattle.std.specs.Io.KnownBytes.{Appends};
ghost use Rattle.mt_port.specs.Causes.{HasCause};
ghost use Rattle.mt_port.specs.Streams.{AppendsFront};
ghost use Rattle.mt_text.specs.Trace.{state_name, result_name, algorithm_name, refusal_text, identifier_text, detail_text, value_text, reply_text, shown_entry, entry_text};

use arrayvec::ArrayVec;
use mt_hex::{push_bytes, push_number, push_word};
use mt_port::{Failed, Sink, put};
use mt_window::{AlgorithmName, Detail, Entry, Refusal, Reply, ShownState, TestResult, Value};
use mt_word::Width;

fn state_name(state: ShownState) -> &'static [u8]
    ensures value { result.now ≡ state_name state }
    ensures short { length result.now ≤ 9 }
{
    match state {
        ShownState::Uninit => b"UNINIT",
        ShownState::Stopped => b"STOPPED",
        ShownState::Running => b"RUNNING",
        ShownState::Suspended => b"SUSPENDED",
        ShownState::Init => b"INIT",
        ShownState::Aborted => b"ABORTED",
    }
}

fn result_name(outcome: TestResult) -> &'static [u8]
    ensures value { result.now ≡ result_name outcome }
    ensures short { length result.now ≤ 10 }
{
    match outcome {
        TestResult::NotTested => b"NOT_TESTED",
        TestResult::Ok => b"OK",
        TestResult::NotOk => b"NOT_OK",
        TestResult::Undefined => b"UNDEFINED",
    }
}

fn algorithm_name(algorithm: AlgorithmName) -> &'static [u8]
    ensures value { result.now ≡ algorithm_name algorithm }
    ensures short { length result.now ≤ 18 }
{
    match algorithm {
        AlgorithmName::Checkerboard => b"checkerboard",
        AlgorithmName::March => b"march",
        AlgorithmName::WalkPath => b"walk-path",
        AlgorithmName::Galpat => b"galpat",
        AlgorithmName::TransparentGalpat => b"transparent-galpat",
    }
}

fn refusal_text(refusal: Refusal) -> &'static [u8]
    ensures value { result.now ≡ refusal_text refusal }
    ensures short { length result.now ≤ 9 }
{
    match refusal {
        Refusal::Uninit => b"refused 1",
        Refusal::Status => b"refused 2",
        Refusal::Range => b"refused 3",
    }
}

fn push_identifier<const N: usize>(out: &mut ArrayVec<u8, N>, id: Option<u32>)
    requires { length out.old.items + 10 ≤ N }
    ensures text { out.new.items ≡ out.old.items ++ identifier_text id }
    ensures short { length out.new.items ≤ length out.old.items + 10 }
{
    match id {
        None => push_bytes(out, b"none"),
        Some(id) => push_number(out, id),
    }
}

fn push_place<const N: usize>(out: &mut ArrayVec<u8, N>, kind: &[u8], block: u32, addr: u32)
    requires { length out.old.items + length kind.now + 21 ≤ N }
    ensures text { out.new.items ≡ out.old.items ++ kind.now ++ decimal block ++ codes " " ++ decimal addr }
    ensures short { length out.new.items ≤ length out.old.items + length kind.now + 21 }
{
    push_bytes(out, kind);
    push_number(out, block);
    out.push(b' ');
    push_number(out, addr);
}

fn push_detail<const N: usize>(out: &mut ArrayVec<u8, N>, detail: Detail)
    requires { length out.old.items + 26 ≤ N }
    ensures text { out.new.items ≡ out.old.items ++ detail_text detail }
    ensures short { length out.new.items ≤ length out.old.items + 26 }
{
    match detail {
        Detail::Nothing => push_bytes(out, b"none"),
        Detail::Bgnd { block, addr } => push_place(out, b"bgnd ", block, addr),
        Detail::Fgnd { block, addr } => push_place(out, b"fgnd ", block, addr),
    }
}

fn push_interval<const N: usize>(out: &mut ArrayVec<u8, N>, id: Option<u32>, outcome: TestResult)
    requires { length out.old.items + 21 ≤ N }
    ensures text { out.new.items ≡ out.old.items ++ identifier_text id ++ codes " " ++ result_name outcome }
    ensures short { length out.new.items ≤ length out.old.items + 21 }
{
    push_identifier(out, id);
    out.push(b' ');
    push_bytes(out, result_name(outcome));
}

fn push_value<const N: usize>(out: &mut ArrayVec<u8, N>, width: Width, value: Value)
    requires { length out.old.items + 26 ≤ N }
    ensures text { out.new.items ≡ out.old.items ++ value_text width value }
    ensures short { length out.new.items ≤ length out.old.items + 26 }
{
    match value {
        Value::Word(word) => push_word(out, width, word),
        Value::Number(n) => push_number(out, n),
        Value::State(state) => push_bytes(out, state_name(state)),
        Value::Result(outcome) => push_bytes(out, result_name(outcome)),
        Value::Algorithm(algorithm) => push_bytes(out, algorithm_name(algorithm)),
        Value::Interval { id, result } => push_interval(out, id, result),
        Value::Details(detail) => push_detail(out, detail),
        Value::Version => push_bytes(out, b"1.0.0"),
    }
}

fn push_ran<const N: usize>(out: &mut ArrayVec<u8, N>, accesses: u32)
    requires { length out.old.items + 14 ≤ N }
    ensures text { out.new.items ≡ out.old.items ++ codes "ran " ++ decimal accesses }
    ensures short { length out.new.items ≤ length out.old.items + 14 }
{
    push_bytes(out, b"ran ");
    push_number(out, accesses);
}

fn push_reply<const N: usize>(out: &mut ArrayVec<u8, N>, width: Width, reply: Reply)
    requires { length out.old.items + 26 ≤ N }
    ensures text { out.new.items ≡ out.old.items ++ reply_text width reply }
    ensures short { length out.new.items ≤ length out.old.items + 26 }
{
    match reply {
        Reply::Done => push_bytes(out, b"ok"),
        Reply::Ran(accesses) => push_ran(out, accesses),
        Reply::Value(value) => push_value(out, width, value),
        Reply::Refused(refusal) => push_bytes(out, refusal_text(refusal)),
        Reply::Present => push_bytes(out, b"present"),
    }
}

fn push_served<const N: usize>(out: &mut ArrayVec<u8, N>, number: u8, at: u32, wait: u32)
    requires { length out.old.items + 44 ≤ N }
    ensures text { out.new.items ≡ out.old.items
        ++ codes "irq " ++ decimal number ++ codes " at " ++ decimal at ++ codes " wait " ++ decimal wait }
    ensures short { length out.new.items ≤ length out.old.items + 44 }
{
    push_bytes(out, b"irq ");
    push_number(out, u32::from(number));
    push_bytes(out, b" at ");
    push_number(out, at);
    push_bytes(out, b" wait ");
    push_number(out, wait);
}

fn push_inner<const N: usize>(out: &mut ArrayVec<u8, N>, width: Width, reply: Reply)
    requires { length out.old.items + 28 ≤ N }
    ensures text { out.new.items ≡ out.old.items ++ codes "- " ++ reply_text width reply }
    ensures short { length out.new.items ≤ length out.old.items + 28 }
{
    push_bytes(out, b"- ");
    push_reply(out, width, reply);
}

fn push_shown<const N: usize>(out: &mut ArrayVec<u8, N>, width: Width, entry: Entry)
    requires { length out.old.items + 44 ≤ N }
    ensures text { out.new.items ≡ out.old.items ++ shown_entry width entry }
    ensures short { length out.new.items ≤ length out.old.items + 44 }
{
    match entry {
        Entry::Served { number, at, wait } => push_served(out, number, at, wait),
        Entry::Inner(reply) => push_inner(out, width, reply),
        Entry::Own(reply) => push_reply(out, width, reply),
    }
}

/// Appends the trace line of an entry, with its line feed, where there is room for the longest one.
#[tactic(auto, unfolding(crate::specs::Trace::entry_text))]
pub fn push_entry<const N: usize>(
    out: &mut ArrayVec<u8, N>,
    number: u32,
    entry: &Entry,
    width: Width,
)
    requires { length out.old.items + 64 ≤ N }
    ensures text { out.new.items ≡ out.old.items ++ entry_text width number entry.now }
    ensures short { length out.new.items ≤ length out.old.items + 64 }
{
    push_number(out, number);
    out.push(b' ');
    push_shown(out, width, *entry);
    out.push(b'\n');
}

/// The trace line of an entry, with its line feed: at most 10 digits, a space, 44 bytes and a line feed.
pub fn entry_text(number: u32, entry: &Entry, width: Width) -> ArrayVec<u8, 64>
    ensures { result.items ≡ entry_text width number entry.now }
{
    let mut out = ArrayVec::new();
    push_entry(&mut out, number, entry, width);
    out
}

/// Writes the trace line of an entry of the script line with this number, by one call of `put`.
pub fn write_entry<K: Sink>(
    number: u32,
    entry: &Entry,
    width: Width,
    sink: &mut K,
) -> Result<(), Failed>
    ensures ok { OnOk result (Appends (K.held sink.old) (K.held sink.new) (entry_text width number entry.now)) }
    ensures err { OnErr result (AppendsFront (K.held sink.old) (K.held sink.new) (entry_text width number entry.now)) }
    ensures cause { HasCause (K.faults sink.old) (K.faults sink.new) result }
{
    let text = entry_text(number, entry, width);
    put(sink, &text)
}
