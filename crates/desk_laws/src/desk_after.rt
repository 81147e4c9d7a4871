//! The headline of the functions themselves: a desk that is begun, and makes calls.
ghost use Rattle.std.specs.Prelude.{◌≡◌, if◌then◌else◌, IfOk, IfErr, OnErr};
ghost use Rattle.desk_ground.specs.Screens as screens;
ghost use Rattle.def_iface.specs.Stocks.{AreAllFull};
ghost use Rattle.desk_toolbox.specs.Reached.{IsJustBegun};
ghost use Rattle.desk_toolbox.specs.ToolboxStates.{ToolboxState};
ghost use Rattle.desk_laws.specs.Headline.{IsDeskOf, IsHeadline};

use def_iface::{Stock, StockedAll};
use desk_toolbox::{Call, Desk, Reply, Toolbox};
use std::alloc::{AllocError, Global};
use strike_font::Font;
use tb_geom::Refusal;

/// Begins a desk, makes the calls, and gives the desk and their answers: the headline holds of it. Where no screen has
/// these sides it is OutOfRange, and where there is no memory NoMemory: then no desk is left, and each slot of the stock is
/// full again.
pub fn desk_after(
    alloc: Global,
    width: i32,
    height: i32,
    bar: i32,
    font: Font,
    calls: &[Call<'_>],
    stock: &mut Stock,
) -> Result<(Toolbox, Vec<Result<Reply, Refusal>>), Refusal>
    requires { AreAllFull (⟦<Stock as StockedAll>⟧.all_slots stock.old) }
    ensures whole { IfOk result (λ r. ⟦<Toolbox as Desk>⟧.IsWhole r.0 stock.new) }
    ensures headline { IfOk result (λ r. (first : ToolboxState) × IsJustBegun first
        × IsHeadline first calls.now r.1.items (⟦<Toolbox as Desk>⟧.state r.0 stock.new)) }
    ensures asked { IfOk result (λ r. IsDeskOf width height bar font (⟦<Toolbox as Desk>⟧.state r.0 stock.new)) }
    ensures refused { IfErr result
        (λ e. e ≡ (if screens.is_screen width height bar then Refusal.NoMemory else Refusal.OutOfRange)) }
    ensures full { OnErr result (AreAllFull (⟦<Stock as StockedAll>⟧.all_slots stock.new)) }
{
    let mut desk = match Toolbox::new(alloc, width, height, bar, font) {
        Ok(desk) => desk,
        Err(not_begun) => return Err(not_begun.refusal),
    };
    match desk.run(calls, stock) {
        Ok(answers) => Ok((desk, answers)),
        Err(AllocError) => {
            desk.close(stock);
            Err(Refusal::NoMemory)
        }
    }
}
