//! Both state tables in numbers.

ghost use Rattle.std.specs.Prelude.{◌≡◌, ◌++◌, OnOk};
ghost use Rattle.std.specs.List.{flat_map};
ghost use Rattle.mt_unit.specs.FlsCells.{fls_cell};
ghost use Rattle.mt_unit.specs.RamCells.{ram_cell};
ghost use Rattle.mt_unit.specs.StateTables.{fls_cell_numbers, fls_column_number, fls_row_numbers, fls_table, ram_cell_numbers, ram_column_number, ram_row_numbers, ram_table, reply_number};

use crate::cell::CellReply;
use crate::fls_cells::{FlsColumn, FlsRow, fls_cell};
use crate::ram_cells::{RamColumn, RamRow, ram_cell};
use std::alloc::AllocError;

fn reply_number(reply: CellReply) -> u64
    ensures { result ≡ reply_number reply }
{
    match reply {
        CellReply::Taken => 0,
        CellReply::RefusedUninit => 1,
        CellReply::RefusedStatus => 2,
        CellReply::Resting => 4,
    }
}

fn ram_column_number(column: RamColumn) -> u64
    ensures { result ≡ ram_column_number column }
{
    match column {
        RamColumn::Uninit => 0,
        RamColumn::Stopped => 1,
        RamColumn::Running => 2,
        RamColumn::Suspended => 3,
        RamColumn::Full => 4,
        RamColumn::Partial => 5,
    }
}

fn push_ram_cell(row: RamRow, column: RamColumn, out: &mut Vec<u64>) -> Result<(), AllocError>
    ensures { OnOk result (out.new.items ≡ out.old.items ++ ram_cell_numbers (ram_cell row column)) }
{
    let cell = ram_cell(row, column);
    out.push(reply_number(cell.reply))?;
    out.push(ram_column_number(cell.next))?;
    Ok(())
}

fn push_ram_row(row: RamRow, out: &mut Vec<u64>) -> Result<(), AllocError>
    ensures { OnOk result (out.new.items ≡ out.old.items ++ ram_row_numbers row) }
{
    push_ram_cell(row, RamColumn::Uninit, out)?;
    push_ram_cell(row, RamColumn::Stopped, out)?;
    push_ram_cell(row, RamColumn::Running, out)?;
    push_ram_cell(row, RamColumn::Suspended, out)?;
    push_ram_cell(row, RamColumn::Full, out)?;
    push_ram_cell(row, RamColumn::Partial, out)
}

fn push_ram_rows(rows: &[RamRow], out: &mut Vec<u64>) -> Result<(), AllocError>
    ensures { OnOk result (out.new.items ≡ out.old.items ++ flat_map ram_row_numbers rows.now) }
{
    for row in rows {
        push_ram_row(*row, out)?;
    }
    Ok(())
}

/// Appends the state table of RamTst: for each service and each state a reply and the next state.
#[tactic(auto, unfolding(crate::specs::StateTables::ram_table))]
pub(crate) fn push_ram_table(out: &mut Vec<u64>) -> Result<(), AllocError>
    ensures { OnOk result (out.new.items ≡ out.old.items ++ ram_table) }
{
    push_ram_rows(
        &[
            RamRow::Init,
            RamRow::DeInit,
            RamRow::Allow,
            RamRow::Stop,
            RamRow::Suspend,
            RamRow::Resume,
            RamRow::SelectAlgParams,
            RamRow::ChangeNumberOfTestedCells,
            RamRow::RunFullTest,
            RamRow::RunPartialTest,
            RamRow::MainFunction,
            RamRow::GetTestResultPerBlock,
            RamRow::GetTestResult,
            RamRow::GetAlgParams,
            RamRow::GetTestAlgorithm,
            RamRow::GetNumberOfTestedCells,
            RamRow::GetExecutionStatus,
            RamRow::GetVersionInfo,
        ],
        out,
    )
}

fn fls_column_number(column: FlsColumn) -> u64
    ensures { result ≡ fls_column_number column }
{
    match column {
        FlsColumn::Uninit => 0,
        FlsColumn::Init => 1,
        FlsColumn::Running => 2,
        FlsColumn::Suspended => 3,
        FlsColumn::Aborted => 4,
        FlsColumn::Foreground => 5,
    }
}

fn push_fls_cell(row: FlsRow, column: FlsColumn, out: &mut Vec<u64>) -> Result<(), AllocError>
    ensures { OnOk result (out.new.items ≡ out.old.items ++ fls_cell_numbers (fls_cell row column)) }
{
    let cell = fls_cell(row, column);
    out.push(reply_number(cell.reply))?;
    out.push(fls_column_number(cell.next))?;
    Ok(())
}

fn push_fls_row(row: FlsRow, out: &mut Vec<u64>) -> Result<(), AllocError>
    ensures { OnOk result (out.new.items ≡ out.old.items ++ fls_row_numbers row) }
{
    push_fls_cell(row, FlsColumn::Uninit, out)?;
    push_fls_cell(row, FlsColumn::Init, out)?;
    push_fls_cell(row, FlsColumn::Running, out)?;
    push_fls_cell(row, FlsColumn::Suspended, out)?;
    push_fls_cell(row, FlsColumn::Aborted, out)?;
    push_fls_cell(row, FlsColumn::Foreground, out)
}

fn push_fls_rows(rows: &[FlsRow], out: &mut Vec<u64>) -> Result<(), AllocError>
    ensures { OnOk result (out.new.items ≡ out.old.items ++ flat_map fls_row_numbers rows.now) }
{
    for row in rows {
        push_fls_row(*row, out)?;
    }
    Ok(())
}

/// Appends the state table of FlsTst: for each service and each state a reply and the next state.
#[tactic(auto, unfolding(crate::specs::StateTables::fls_table))]
pub(crate) fn push_fls_table(out: &mut Vec<u64>) -> Result<(), AllocError>
    ensures { OnOk result (out.new.items ≡ out.old.items ++ fls_table) }
{
    push_fls_rows(
        &[
            FlsRow::Init,
            FlsRow::DeInit,
            FlsRow::Abort,
            FlsRow::Suspend,
            FlsRow::Resume,
            FlsRow::StartFgnd,
            FlsRow::MainFunction,
            FlsRow::GetCurrentState,
            FlsRow::GetTestResultBgnd,
            FlsRow::GetTestResultFgnd,
            FlsRow::GetErrorDetails,
            FlsRow::GetVersionInfo,
        ],
        out,
    )
}
