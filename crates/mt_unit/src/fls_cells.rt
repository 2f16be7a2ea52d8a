//! The cells of FlsTst's state table.

ghost use Rattle.std.specs.Prelude.{◌≡◌, ◌<◌};
ghost use Rattle.mt_unit.specs.FlsCells.{fls_cell, refused, taken};

use crate::cell::CellReply;

/// The services of FlsTst, in the order of the rows of its state table.
#[derive(Clone, Copy, Debug, PartialEq, Eq)]
pub enum FlsRow {
    Init,
    DeInit,
    Abort,
    Suspend,
    Resume,
    StartFgnd,
    MainFunction,
    GetCurrentState,
    GetTestResultBgnd,
    GetTestResultFgnd,
    GetErrorDetails,
    GetVersionInfo,
}

/// The states of FlsTst, in the order of the columns of its state table.
#[derive(Clone, Copy, Debug, PartialEq, Eq)]
pub enum FlsColumn {
    Uninit,
    Init,
    Running,
    Suspended,
    Aborted,
    Foreground,
}

/// A cell: how a call is answered, and the column in which the module goes on.
#[derive(Clone, Copy, Debug, PartialEq, Eq)]
pub struct FlsTableCell {
    pub reply: CellReply,
    pub next: FlsColumn,
}

fn taken(next: FlsColumn) -> FlsTableCell
    ensures { result ≡ taken next }
{
    FlsTableCell {
        reply: CellReply::Taken,
        next,
    }
}

fn refused(reply: CellReply, column: FlsColumn) -> FlsTableCell
    ensures { result ≡ refused reply column }
{
    FlsTableCell {
        reply,
        next: column,
    }
}

/// How a service is answered in a state, and where the module goes on.
pub fn fls_cell(row: FlsRow, column: FlsColumn) -> FlsTableCell
    ensures { result ≡ fls_cell row column }
{
    match row {
        FlsRow::Init => match column {
            FlsColumn::Uninit => taken(FlsColumn::Init),
            FlsColumn::Aborted => taken(FlsColumn::Init),
            _ => refused(CellReply::RefusedStatus, column),
        },
        FlsRow::DeInit => match column {
            FlsColumn::Uninit => refused(CellReply::RefusedUninit, FlsColumn::Uninit),
            _ => taken(FlsColumn::Uninit),
        },
        FlsRow::Abort => match column {
            FlsColumn::Uninit => refused(CellReply::RefusedUninit, FlsColumn::Uninit),
            FlsColumn::Init => taken(FlsColumn::Aborted),
            FlsColumn::Running => taken(FlsColumn::Aborted),
            FlsColumn::Suspended => taken(FlsColumn::Aborted),
            _ => refused(CellReply::RefusedStatus, column),
        },
        FlsRow::Suspend => match column {
            FlsColumn::Uninit => refused(CellReply::RefusedUninit, FlsColumn::Uninit),
            FlsColumn::Running => taken(FlsColumn::Suspended),
            _ => refused(CellReply::RefusedStatus, column),
        },
        FlsRow::Resume => match column {
            FlsColumn::Uninit => refused(CellReply::RefusedUninit, FlsColumn::Uninit),
            FlsColumn::Suspended => taken(FlsColumn::Running),
            _ => refused(CellReply::RefusedStatus, column),
        },
        FlsRow::StartFgnd => match column {
            FlsColumn::Uninit => refused(CellReply::RefusedUninit, FlsColumn::Uninit),
            FlsColumn::Init => taken(FlsColumn::Foreground),
            FlsColumn::Running => taken(FlsColumn::Foreground),
            FlsColumn::Suspended => taken(FlsColumn::Foreground),
            _ => refused(CellReply::RefusedStatus, column),
        },
        FlsRow::MainFunction => match column {
            FlsColumn::Uninit => refused(CellReply::RefusedUninit, FlsColumn::Uninit),
            FlsColumn::Init => taken(FlsColumn::Running),
            FlsColumn::Running => taken(FlsColumn::Running),
            _ => refused(CellReply::Resting, column),
        },
        FlsRow::GetCurrentState => taken(column),
        FlsRow::GetTestResultBgnd => match column {
            FlsColumn::Uninit => refused(CellReply::RefusedUninit, FlsColumn::Uninit),
            _ => taken(column),
        },
        FlsRow::GetTestResultFgnd => match column {
            FlsColumn::Uninit => refused(CellReply::RefusedUninit, FlsColumn::Uninit),
            _ => taken(column),
        },
        FlsRow::GetErrorDetails => match column {
            FlsColumn::Uninit => refused(CellReply::RefusedUninit, FlsColumn::Uninit),
            _ => taken(column),
        },
        FlsRow::GetVersionInfo => taken(column),
    }
}
