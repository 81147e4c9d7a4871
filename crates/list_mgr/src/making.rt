//! Lists that are made: their definitions are taken out of the stocks, they are judged and put, and where they are not made, what
//! was taken goes back.
ghost use Rattle.std.specs.Prelude.{◌≡◌, None, Some, true, false, IfOk, IfErr};
ghost use Rattle.std.specs.Option.{option_map};
ghost use Rattle.def_iface.specs.Slots.{has_kind};
ghost use Rattle.desk_call.specs.declared.list.ListCall.TheVariants as asks;
ghost use Rattle.control_mgr.specs.Making.{IsRoomier};
ghost use Rattle.list_mgr.specs.ListRefusals.{lacks_kind, scroll_kind};
ghost use Rattle.list_mgr.specs.ListSteps.{IsListMade, IsListStep};
ghost use Rattle.list_mgr.specs.Making.{IsListTicket};
ghost use Rattle.list_mgr.specs.Offers.{AreOffered, AreOut, AreOutBeside, IsBack, IsNotMade, IsOffer, IsOfferIf};
ghost use Rattle.list_mgr.specs.Offers.{MayGoBack, definition_of, lacks_any, seen_offers, why_not};
ghost use Rattle.list_mgr.specs.Putting.{AreRoomier};

use crate::judging::{ListTicket, SCROLL, lacks_kind};
use crate::{DeskLists, DeskListsWithBars, Lists};
use control_mgr::{Controls, DeskControls};
use def_iface::{ControlStock, Defined, ListStock, Stocked, TakenControl, TakenList, TakenWindow};
use desk_call::{ListReply, NewList};
use tb_geom::Refusal;
use window_mgr::{DeskWindows, WindowManager};

/// The definitions that a new list and its scroll bars are offered: of those that are wanted, the ones that were to be had.
#[derive(Drop)]
struct Offers {
    list: Option<TakenList>,
    vertical: Option<TakenControl>,
    horizontal: Option<TakenControl>,
}

/// Takes a definition of this kind of lists, which the stock has, if one is left.
fn take_list(kind: &[u8], stock: &mut ListStock) -> Option<TakenList>
    requires { has_kind kind.now (⟦<ListStock as Stocked>⟧.slots stock.old) ≡ true }
    ensures { IsOffer (λ d. d.stage) kind.now (option_map ⟦<TakenList as Defined>⟧.loan result)
        (⟦<ListStock as Stocked>⟧.slots stock.old) (⟦<ListStock as Stocked>⟧.slots stock.new) }
{
    match stock.take(kind) {
        Ok(taken) => Some(taken),
        Err(_) => None,
    }
}

/// Takes a definition of a scroll bar, if one is wanted and left. Where one is wanted, the stock has the kind.
fn take_bar(wanted: bool, bars: &mut ControlStock) -> Option<TakenControl>
    requires { wanted ≡ true → has_kind scroll_kind (⟦<ControlStock as Stocked>⟧.slots bars.old) ≡ true }
    ensures { IsOfferIf (λ d. d.stage) wanted scroll_kind (option_map ⟦<TakenControl as Defined>⟧.loan result)
        (⟦<ControlStock as Stocked>⟧.slots bars.old) (⟦<ControlStock as Stocked>⟧.slots bars.new) }
{
    if !wanted {
        return None;
    }
    match bars.take(SCROLL) {
        Ok(taken) => Some(taken),
        Err(_) => None,
    }
}

/// Puts a list's definition back, if one was taken.
fn put_list_back(taken: Option<TakenList>, stock: &mut ListStock)
    requires { MayGoBack (λ d. d.stage) (option_map ⟦<TakenList as Defined>⟧.loan taken)
        (⟦<ListStock as Stocked>⟧.slots stock.old) }
    ensures { IsBack (option_map ⟦<TakenList as Defined>⟧.loan taken)
        (⟦<ListStock as Stocked>⟧.slots stock.old) (⟦<ListStock as Stocked>⟧.slots stock.new) }
{
    if let Some(taken) = taken {
        stock.put_back(taken);
    }
}

/// Puts a scroll bar's definition back, if one was taken.
fn put_bar_back(taken: Option<TakenControl>, bars: &mut ControlStock)
    requires { MayGoBack (λ d. d.stage) (option_map ⟦<TakenControl as Defined>⟧.loan taken)
        (⟦<ControlStock as Stocked>⟧.slots bars.old) }
    ensures { IsBack (option_map ⟦<TakenControl as Defined>⟧.loan taken)
        (⟦<ControlStock as Stocked>⟧.slots bars.old) (⟦<ControlStock as Stocked>⟧.slots bars.new) }
{
    if let Some(taken) = taken {
        bars.put_back(taken);
    }
}

impl Offers {
    /// Takes the definitions that a new list and its scroll bars need, of which the stocks have the kinds, as far as they are to be
    /// had.
    fn take(new: &NewList<'_>, stock: &mut ListStock, bars: &mut ControlStock) -> Offers
        requires { lacks_kind new.now (⟦<ListStock as Stocked>⟧.slots stock.old)
            (⟦<ControlStock as Stocked>⟧.slots bars.old) ≡ false }
        ensures { AreOffered new.now (seen_offers ⟦<TakenControl as Defined>⟧.loan ⟦<TakenList as Defined>⟧.loan result)
            (⟦<ListStock as Stocked>⟧.slots stock.old) (⟦<ListStock as Stocked>⟧.slots stock.new)
            (⟦<ControlStock as Stocked>⟧.slots bars.old) (⟦<ControlStock as Stocked>⟧.slots bars.new) }
    {
        let list = take_list(new.kind.as_slice(), stock);
        let vertical = take_bar(new.vertical_bar, bars);
        let horizontal = take_bar(new.horizontal_bar, bars);
        Offers {
            list,
            vertical,
            horizontal,
        }
    }

    /// A list's definition with those of its scroll bars.
    fn of(
        list: TakenList,
        vertical: Option<TakenControl>,
        horizontal: Option<TakenControl>,
    ) -> Offers
        ensures { result ≡ record { list = Some list; vertical = vertical; horizontal = horizontal } }
    {
        Offers {
            list: Some(list),
            vertical,
            horizontal,
        }
    }

    /// Puts all back that was taken for a new list: the stocks are as they were.
    fn give_back(self, new: &NewList<'_>, stock: &mut ListStock, bars: &mut ControlStock)
        requires { AreOut new.now (seen_offers ⟦<TakenControl as Defined>⟧.loan ⟦<TakenList as Defined>⟧.loan self)
            (⟦<ListStock as Stocked>⟧.slots stock.old) (⟦<ControlStock as Stocked>⟧.slots bars.old) }
        ensures { (kept held : _) → AreOffered new.now (seen_offers ⟦<TakenControl as Defined>⟧.loan
            ⟦<TakenList as Defined>⟧.loan self)
            kept (⟦<ListStock as Stocked>⟧.slots stock.old) held (⟦<ControlStock as Stocked>⟧.slots bars.old)
            → (⟦<ListStock as Stocked>⟧.slots stock.new ≡ kept) × (⟦<ControlStock as Stocked>⟧.slots bars.new ≡ held) }
    {
        let Offers {
            list,
            vertical,
            horizontal,
        } = self;
        put_bar_back(horizontal, bars);
        put_bar_back(vertical, bars);
        put_list_back(list, stock);
    }

    /// Whether one that is wanted was not to be had.
    fn lacks_any(&self, new: &NewList<'_>) -> bool
        ensures { result ≡ lacks_any new.now (seen_offers ⟦<TakenControl as Defined>⟧.loan ⟦<TakenList as Defined>⟧.loan
            self.now) }
    {
        self.list.is_none()
            || ((new.vertical_bar && self.vertical.is_none())
                || (new.horizontal_bar && self.horizontal.is_none()))
    }
}

impl Lists<TakenList> {
    /// Makes a list of a window with its scroll bars, and draws all that they own.
    pub(crate) fn make(
        &mut self,
        windows: &mut WindowManager,
        controls: &mut Controls<TakenControl>,
        new: &NewList<'_>,
        stock: &mut ListStock,
        bars: &mut ControlStock,
    ) -> Result<ListReply, Refusal>
        requires kept { ⟦<WindowManager as DeskWindows>⟧.IsKept windows.old }
        requires controls { ⟦<Controls<TakenControl> as DeskControls>⟧.IsWhole windows.old controls.old bars.old }
        requires lists { ⟦<Self as DeskLists>⟧.IsWhole windows.old self.old stock.old }
        ensures { ⟦<Self as DeskListsWithBars>⟧.LeavesStocks bars.old bars.new stock.old stock.new
            (IsListStep (asks.New new.now) result) windows.old controls.old self.old windows.new controls.new self.new }
    {
        if lacks_kind(new, stock, bars) {
            return Err(Refusal::NoSuchName);
        }
        let offers = Offers::take(new, stock, bars);
        match self.make_with(windows, controls, new, offers) {
            Ok(serial) => Ok(ListReply::Made(serial)),
            Err((offers, refusal)) => {
                offers.give_back(new, stock, bars);
                Err(refusal)
            }
        }
    }

    /// Makes a list with the definitions that it is offered. Where it is not made, they come back as they were, and nothing
    /// changed but room.
    fn make_with(
        &mut self,
        windows: &mut WindowManager,
        controls: &mut Controls<TakenControl>,
        new: &NewList<'_>,
        offers: Offers,
    ) -> Result<u64, (Offers, Refusal)>
        requires kept { ⟦<WindowManager as DeskWindows>⟧.IsKept windows.old }
        requires out { AreOutBeside ⟦<TakenControl as Defined>⟧.loan ⟦<TakenList as Defined>⟧.loan
            ⟦<TakenWindow as Defined>⟧.loan new.now
            (seen_offers ⟦<TakenControl as Defined>⟧.loan ⟦<TakenList as Defined>⟧.loan offers) windows.old
            controls.old }
        requires lists { ⟦<Self as DeskLists>⟧.AreBeside windows.old self.old }
        ensures unrefused { IfOk result (λ _. why_not ⟦<TakenControl as Defined>⟧.loan ⟦<TakenList as Defined>⟧.loan
            ⟦<TakenWindow as Defined>⟧.loan new.now
            (seen_offers ⟦<TakenControl as Defined>⟧.loan ⟦<TakenList as Defined>⟧.loan offers) windows.old controls.old
            self.old ≡ None) }
        ensures made { IfOk result (λ serial. (kept rest held left : _)
            → AreOffered new.now (seen_offers ⟦<TakenControl as Defined>⟧.loan ⟦<TakenList as Defined>⟧.loan offers)
            kept rest held left
            → ⟦<Self as DeskListsWithBars>⟧.LeavesOver held left kept rest
            (IsListMade new.now serial) windows.old controls.old self.old windows.new controls.new self.new) }
        ensures refused { IfErr result (λ back. (back.0 ≡ offers)
            × IsNotMade ⟦<TakenControl as Defined>⟧.loan ⟦<TakenList as Defined>⟧.loan ⟦<TakenWindow as Defined>⟧.loan
            new.now
            (seen_offers ⟦<TakenControl as Defined>⟧.loan ⟦<TakenList as Defined>⟧.loan offers) windows.old controls.old
            self.old back.1) }
        ensures same { IfErr result (λ _. (windows.new ≡ windows.old) × IsRoomier controls.old controls.new
            × AreRoomier self.old self.new) }
    {
        let vertical = offers.vertical.as_ref();
        let horizontal = offers.horizontal.as_ref();
        let ticket = match self.judge(windows, controls, new, vertical, horizontal) {
            Ok(ticket) => ticket,
            Err(refusal) => return Err((offers, refusal)),
        };
        if offers.lacks_any(new) {
            return Err((offers, Refusal::NoDefinition));
        }
        let serial = ticket.serial;
        match self.put_offered(windows, controls, new, ticket, offers) {
            Ok(()) => Ok(serial),
            Err(offers) => Err((offers, Refusal::NoMemory)),
        }
    }

    /// Puts a list that was judged with the definitions that it is offered, all that are wanted. Where memory is refused, they come
    /// back as they were, and nothing changed but room.
    fn put_offered(
        &mut self,
        windows: &mut WindowManager,
        controls: &mut Controls<TakenControl>,
        new: &NewList<'_>,
        ticket: ListTicket,
        offers: Offers,
    ) -> Result<(), Offers>
        requires kept { ⟦<WindowManager as DeskWindows>⟧.IsKept windows.old }
        requires out { AreOutBeside ⟦<TakenControl as Defined>⟧.loan ⟦<TakenList as Defined>⟧.loan
            ⟦<TakenWindow as Defined>⟧.loan new.now
            (seen_offers ⟦<TakenControl as Defined>⟧.loan ⟦<TakenList as Defined>⟧.loan offers) windows.old
            controls.old }
        requires lists { ⟦<Self as DeskLists>⟧.AreBeside windows.old self.old }
        requires ticket { IsListTicket ⟦<TakenWindow as Defined>⟧.loan ⟦<TakenControl as Defined>⟧.loan
            ⟦<TakenList as Defined>⟧.loan new.now
            (definition_of (option_map ⟦<TakenControl as Defined>⟧.loan offers.vertical))
            (definition_of (option_map ⟦<TakenControl as Defined>⟧.loan offers.horizontal)) windows.old controls.old
            self.old ticket }
        requires complete { lacks_any new.now (seen_offers ⟦<TakenControl as Defined>⟧.loan
            ⟦<TakenList as Defined>⟧.loan offers) ≡ false }
        ensures made { IfOk result (λ _. (kept rest held left : _)
            → AreOffered new.now (seen_offers ⟦<TakenControl as Defined>⟧.loan ⟦<TakenList as Defined>⟧.loan offers)
            kept rest held left
            → ⟦<Self as DeskListsWithBars>⟧.LeavesOver held left kept rest
            (IsListMade new.now ticket.serial) windows.old controls.old self.old windows.new controls.new self.new) }
        ensures same { IfErr result (λ back. (back ≡ offers) × (windows.new ≡ windows.old)
            × IsRoomier controls.old controls.new × AreRoomier self.old self.new) }
    {
        let Offers {
            list,
            vertical,
            horizontal,
        } = offers;
        let list = list.unwrap();
        match (vertical, horizontal) {
            (None, None) => match self.put(windows, controls, new, ticket, list) {
                Ok(()) => Ok(()),
                Err(list) => Err(Offers::of(list, None, None)),
            },
            (Some(bar), None) => {
                match self.put_with_bar(windows, controls, new, ticket, list, bar) {
                    Ok(()) => Ok(()),
                    Err((list, bar)) => Err(Offers::of(list, Some(bar), None)),
                }
            }
            (None, Some(bar)) => {
                match self.put_with_bar(windows, controls, new, ticket, list, bar) {
                    Ok(()) => Ok(()),
                    Err((list, bar)) => Err(Offers::of(list, None, Some(bar))),
                }
            }
            (Some(down), Some(across)) => {
                match self.put_with_bars(windows, controls, new, ticket, list, down, across) {
                    Ok(()) => Ok(()),
                    Err((list, down, across)) => Err(Offers::of(list, Some(down), Some(across))),
                }
            }
        }
    }
}
