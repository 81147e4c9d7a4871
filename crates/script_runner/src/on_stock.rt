//! A session and a script over their stock, as contracts see them.
ghost use Rattle.def_iface.specs.Stocks.{AllSlots};
ghost use Rattle.script_runner.specs.Boxed as boxed;
ghost use Rattle.script_runner.specs.Script.{ScriptState};
ghost use Rattle.script_runner.specs.Session.{SessionState};

use crate::script::Script;
use crate::session::Session;
use def_iface::{ControlDef, ListDef, MenuDef, Stock, WindowDef};

/// A session over the stock that its definitions come from, as contracts see the two. Where a clause speaks of any
/// stock, it names the same over slots.
pub trait OnStock {
    /// What its definitions come from.
    type Stock;
    /// The boxes that its definitions lie in: what these mean, the members say.
    type Boxes;

    /// Its state.
    ghost session: { Self → Self.Stock → SessionState };

    /// Its state over slots.
    ghost session_over: { Self → AllSlots → SessionState };

    /// It and the stock are as they are between two lines.
    ghost IsReady: { Self → Self.Stock → Type 0 };
}

impl OnStock for Session {
    type Stock = Stock;

    type Boxes = (
        Box<dyn WindowDef>,
        Box<dyn MenuDef>,
        Box<dyn ControlDef>,
        Box<dyn ListDef>,
    );

    ghost session = { boxed.session WindowDef-box MenuDef-box ControlDef-box ListDef-box };

    ghost session_over = { boxed.session_over WindowDef-box MenuDef-box ControlDef-box ListDef-box };

    ghost IsReady = { boxed.IsReadyOn WindowDef-box MenuDef-box ControlDef-box ListDef-box };
}

/// A script over such a stock.
pub trait ScriptOnStock {
    /// What its definitions come from.
    type Stock;
    /// The boxes that its definitions lie in: what these mean, the members say.
    type Boxes;

    /// Its state.
    ghost script: { Self → Self.Stock → ScriptState };

    /// It and the stock are as they are between two lines.
    ghost IsScriptReady: { Self → Self.Stock → Type 0 };
}

impl ScriptOnStock for Script {
    type Stock = Stock;

    type Boxes = (
        Box<dyn WindowDef>,
        Box<dyn MenuDef>,
        Box<dyn ControlDef>,
        Box<dyn ListDef>,
    );

    ghost script = { boxed.script WindowDef-box MenuDef-box ControlDef-box ListDef-box };

    ghost IsScriptReady = { boxed.IsScriptReadyOn WindowDef-box MenuDef-box ControlDef-box ListDef-box };
}
