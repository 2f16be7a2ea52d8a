//! The cells of RamTst's state table.

ghost use Rattle.std.specs.Prelude.{◌≡◌, ◌<◌};
ghost use Rattle.mt_unit.specs.RamCells.{ram_cell, refused, taken};

use crate::cell::CellReply;

/// The services of RamTst, in the order of the rows of its state table.
#[derive(Clone, Copy, Debug, PartialEq, Eq)]
pub enum RamRow {
    Init,
    DeInit,
    Allow,
    Stop,
    Suspend,
    Resume,
    SelectAlgParams,
    ChangeNumberOfTestedCells,
    RunFullTest,
    RunPartialTest,
    MainFunction,
    GetTestResultPerBlock,
    GetTestResult,
    GetAlgParams,
    GetTestAlgorithm,
    GetNumberOfTestedCells,
    GetExecutionStatus,
    GetVersionInfo,
}

/// The states of RamTst, in the order of the columns of its state table.
#[derive(Clone, Copy, Debug, PartialEq, Eq)]
pub enum RamColumn {
    Uninit,
    Stopped,
    Running,
    Suspended,
    Full,
    Partial,
}

/// A cell: how a call is answered, and the column in which the module goes on.
#[derive(Clone, Copy, Debug, PartialEq, Eq)]
pub struct RamTableCell {
    pub reply: CellReply,
    pub next: RamColumn,
}

fn taken(next: RamColumn) -> RamTableCell
    ensures { result ≡ taken next }
{
    RamTableCell {
        reply: CellReply::Taken,
        next,
    }
}

fn refused(reply: CellReply, column: RamColumn) -> RamTableCell
    ensures { result ≡ refused reply column }
{
    RamTableCell {
        reply,
        next: column,
    }
}

/// How a service is answered in a state, and where the module goes on.
pub fn ram_cell(row: RamRow, column: RamColumn) -> RamTableCell
    ensures { result ≡ ram_cell row column }
{
    match row {
        RamRow::Init => match column {
            RamColumn::Uninit => taken(RamColumn::Stopped),
            _ => refused(CellReply::RefusedStatus, column),
        },
        RamRow::DeInit => match column {
            RamColumn::Uninit => refused(CellReply::RefusedUninit, RamColumn::Uninit),
            _ => taken(RamColumn::Uninit),
        },
        RamRow::Allow => match column {
            RamColumn::Uninit => refused(CellReply::RefusedUninit, RamColumn::Uninit),
            RamColumn::Stopped => taken(RamColumn::Running),
            _ => refused(CellReply::RefusedStatus, column),
        },
        RamRow::Stop => match column {
            RamColumn::Uninit => refused(CellReply::RefusedUninit, RamColumn::Uninit),
            RamColumn::Running => taken(RamColumn::Stopped),
            RamColumn::Suspended => taken(RamColumn::Stopped),
            _ => refused(CellReply::RefusedStatus, column),
        },
        RamRow::Suspend => match column {
            RamColumn::Uninit => refused(CellReply::RefusedUninit, RamColumn::Uninit),
            RamColumn::Running => taken(RamColumn::Suspended),
            _ => refused(CellReply::RefusedStatus, column),
        },
        RamRow::Resume => match column {
            RamColumn::Uninit => refused(CellReply::RefusedUninit, RamColumn::Uninit),
            RamColumn::Suspended => taken(RamColumn::Running),
            _ => refused(CellReply::RefusedStatus, column),
        },
        RamRow::SelectAlgParams => match column {
            RamColumn::Uninit => refused(CellReply::RefusedUninit, RamColumn::Uninit),
            RamColumn::Stopped => taken(RamColumn::Stopped),
            _ => refused(CellReply::RefusedStatus, column),
        },
        RamRow::ChangeNumberOfTestedCells => match column {
            RamColumn::Uninit => refused(CellReply::RefusedUninit, RamColumn::Uninit),
            RamColumn::Stopped => taken(RamColumn::Stopped),
            _ => refused(CellReply::RefusedStatus, column),
        },
        RamRow::RunFullTest => match column {
            RamColumn::Uninit => refused(CellReply::RefusedUninit, RamColumn::Uninit),
            RamColumn::Stopped => taken(RamColumn::Full),
            _ => refused(CellReply::RefusedStatus, column),
        },
        RamRow::RunPartialTest => match column {
            RamColumn::Uninit => refused(CellReply::RefusedUninit, RamColumn::Uninit),
            RamColumn::Stopped => taken(RamColumn::Partial),
            RamColumn::Suspended => taken(RamColumn::Partial),
            _ => refused(CellReply::RefusedStatus, column),
        },
        RamRow::MainFunction => match column {
            RamColumn::Uninit => refused(CellReply::RefusedUninit, RamColumn::Uninit),
            RamColumn::Running => taken(RamColumn::Running),
            _ => refused(CellReply::Resting, column),
        },
        RamRow::GetTestResultPerBlock => match column {
            RamColumn::Uninit => refused(CellReply::RefusedUninit, RamColumn::Uninit),
            _ => taken(column),
        },
        RamRow::GetTestResult => match column {
            RamColumn::Uninit => refused(CellReply::RefusedUninit, RamColumn::Uninit),
            _ => taken(column),
        },
        RamRow::GetAlgParams => match column {
            RamColumn::Uninit => refused(CellReply::RefusedUninit, RamColumn::Uninit),
            _ => taken(column),
        },
        RamRow::GetTestAlgorithm => match column {
            RamColumn::Uninit => refused(CellReply::RefusedUninit, RamColumn::Uninit),
            _ => taken(column),
        },
        RamRow::GetNumberOfTestedCells => match column {
            RamColumn::Uninit => refused(CellReply::RefusedUninit, RamColumn::Uninit),
            _ => taken(column),
        },
        RamRow::GetExecutionStatus => taken(column),
        RamRow::GetVersionInfo => taken(column),
    }
}
