//! The form `locate`: the single faults that explain what was missed in a slice.

ghost use Rattle.std.specs.Prelude.{◌≡◌, ◌≤◌, ◌+◌, Option, List, ℕ, OnOk, OnErr};
ghost use Rattle.std.specs.Io.KnownBytes.{prepend_known, Appends};
ghost use Rattle.mt_port.specs.Causes.{HasCause};
ghost use Rattle.mt_port.specs.Streams.{WhereTold, AppendsFront};
ghost use Rattle.mt_port.specs.Board.{Board};
ghost use Rattle.mt_port.specs.declared.board.Touch.{Touch};
ghost use Rattle.mt_locate.specs.Probes.{IsAcceptedProbe, scratch_of};
ghost use Rattle.mt_conf.specs.Accepted.{IsAcceptedConfig};
ghost use Rattle.mt_replay.specs.Changes.{change};
ghost use Rattle.mt_replay.specs.Locate.{found_text, stop_text, stop_status, locating};
ghost use Rattle.mt_replay.specs.Inner.Jobs.{Begins, FoundGives};
ghost use Rattle.mt_replay.specs.Inner.Locates.{StopTold, ListTold, located_by};
ghost use Rattle.mt_replay.specs.Replay.{JobGives, StatusCaused, Told};

use crate::head::HEAD_ROOM;
use crate::input::Input;
use crate::job::{Follows, Found, find, tell, tell_refused};
use crate::locating::{Stop, read_located};
use crate::run::End;
use crate::status::Status;
use crate::text::{found_line, refused_text};
use mt_conf::Config;
use mt_fault::Cells;
use mt_locate::{Miss, Probe, list_faults, scratch};
use mt_port::{Failed, Shape, Sink, Source, put};
use std::alloc::Global;

/// Writes how the lines end where one is refused, or the source failed. No lines end so that are whole.
pub(crate) fn tell_end<K: Sink>(sink: &mut K, end: End) -> Status
    ensures { Told result (stop_status end) (stop_text end) (K.held sink.old) (K.held sink.new) (K.faults sink.old)
        (K.faults sink.new) }
{
    match end {
        End::Refused { line, code, place } => tell(
            sink,
            &refused_text(line, code, place),
            Status::BadScript { line, code, place },
        ),
        End::Broken => tell(sink, b"read fault\n", Status::ReadFault),
        End::Whole(_) => tell(sink, b"read fault\n", Status::ReadFault),
    }
}

/// Writes why not all lines are taken.
pub(crate) fn tell_stop<K: Sink>(sink: &mut K, stop: Stop) -> Status
    ensures { StopTold stop result (K.held sink.old) (K.held sink.new) (K.faults sink.old) (K.faults sink.new) }
{
    match stop {
        Stop::Ended(end) => tell_end(sink, end),
        Stop::NoMemory => Status::NoMemory,
    }
}

// Writes the faults that explain the misses, and how many they are.
fn write_list<K: Sink>(
    cells: &mut Cells,
    probe: &Probe,
    misses: &[Miss],
    shape: Shape,
    sink: &mut K,
) -> Result<(), Failed>
    requires accepted { IsAcceptedProbe probe.now }
    requires scratch { cells.old ≡ scratch_of probe.now }
    requires width { shape.width ≡ probe.now.width }
    requires inside { probe.now.first + probe.now.n ≤ shape.ram }
    ensures ok { OnOk result (Appends (K.held sink.old) (K.held sink.new)
        (found_text shape (located_by probe.now misses.now))) }
    ensures err { OnErr result (AppendsFront (K.held sink.old) (K.held sink.new)
        (found_text shape (located_by probe.now misses.now))) }
    ensures cause { HasCause (K.faults sink.old) (K.faults sink.new) result }
{
    match list_faults(cells, probe, misses, shape, sink) {
        Ok(count) => put(sink, &found_line(count)),
        Err(failed) => Err(failed),
    }
}

// Tries the faults of the slice, and writes those that explain the misses.
fn tell_list<K: Sink>(
    alloc: Global,
    probe: &Probe,
    misses: &[Miss],
    shape: Shape,
    sink: &mut K,
) -> Status
    requires accepted { IsAcceptedProbe probe.now }
    requires width { shape.width ≡ probe.now.width }
    requires inside { probe.now.first + probe.now.n ≤ shape.ram }
    ensures { ListTold shape (located_by probe.now misses.now) result (K.held sink.old) (K.held sink.new)
        (K.faults sink.old) (K.faults sink.new) }
{
    match scratch(alloc, probe) {
        Ok(mut cells) => match write_list(&mut cells, probe, misses, shape, sink) {
            Ok(()) => Status::Done,
            Err(_) => Status::WriteFault,
        },
        Err(_) => Status::NoMemory,
    }
}

// Reads the lines behind an accepted configuration, and tells what explains them.
fn locate_lines<S: Source, K: Sink>(
    alloc: Global,
    config: &Config,
    input: &mut Input,
    source: &mut S,
    sink: &mut K,
) -> Status
    requires { IsAcceptedConfig config.now }
    ensures gives { (a : Option (List ℕ)) (board : Board) (tape : Option (List Touch))
        → WhereTold a (prepend_known input.old (S.left source.old)) (Begins config.now)
        → JobGives result locating board board (S.faults source.old) (S.faults source.new)
        (change a (S.left source.new) (K.held sink.old) (K.held sink.new) tape tape) }
    ensures cause { StatusCaused result (S.faults source.old) (S.faults source.new) (K.faults sink.old)
        (K.faults sink.new) }
{
    let mut misses = Vec::new(alloc);
    let sets = config.ram_tst.sets.as_slice();
    match read_located(
        input,
        source,
        config.shape,
        config.initial,
        sets,
        &mut misses,
    ) {
        Ok(probe) => tell_list(alloc, &probe, &misses, config.shape, sink),
        Err(stop) => tell_stop(sink, stop),
    }
}

// Tells what explains the lines behind an accepted configuration. Where there is none, that of the slice is missing.
fn locate_config<S: Source, K: Sink>(
    alloc: Global,
    config: Config,
    follows: Follows,
    input: &mut Input,
    source: &mut S,
    sink: &mut K,
) -> Status
    requires { IsAcceptedConfig config }
    ensures gives { (a : Option (List ℕ)) (board : Board) (tape : Option (List Touch))
        → WhereTold a (prepend_known input.old (S.left source.old)) (FoundGives (Found.Config config follows))
        → JobGives result locating board board (S.faults source.old) (S.faults source.new)
        (change a (S.left source.new) (K.held sink.old) (K.held sink.new) tape tape) }
    ensures cause { StatusCaused result (S.faults source.old) (S.faults source.new) (K.faults sink.old)
        (K.faults sink.new) }
{
    match follows {
        Follows::Lines => locate_lines(alloc, &config, input, source, sink),
        Follows::Nothing => tell_end(
            sink,
            End::Refused {
                line: 1,
                code: 1,
                place: 1,
            },
        ),
    }
}

/// Writes the single faults that explain what was missed in a slice. The source has a configuration, the slice, and what
/// was missed there.
pub fn locate_job<S: Source, K: Sink>(alloc: Global, source: &mut S, sink: &mut K) -> Status
    ensures gives { (board : Board) (tape : Option (List Touch))
        → JobGives result locating board board (S.faults source.old) (S.faults source.new)
        (change (S.left source.old) (S.left source.new) (K.held sink.old) (K.held sink.new) tape tape) }
    ensures cause { StatusCaused result (S.faults source.old) (S.faults source.new) (K.faults sink.old)
        (K.faults sink.new) }
{
    let Ok(mut kept) = Vec::with_capacity(alloc, HEAD_ROOM) else {
        return Status::NoMemory;
    };
    let mut input = Input::new();
    match find(alloc, &mut input, source, &mut kept) {
        Ok(Found::NoMemory) => Status::NoMemory,
        Ok(Found::Refused(why)) => tell_refused(sink, &why),
        Ok(Found::Config(config, follows)) => {
            locate_config(alloc, config, follows, &mut input, source, sink)
        }
        Err(_) => tell(sink, b"read fault\n", Status::ReadFault),
    }
}
