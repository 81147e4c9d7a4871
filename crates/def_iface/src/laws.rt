//! What a window's definition shows, by what it was told.
ghost use Rattle.std.specs.Prelude.{◌≡◌, List, ℕ};
ghost use Rattle.tb_geom.specs.declared.point.Point.{Point};
ghost use Rattle.def_iface.specs.declared.window_def.WindowChange.{WindowChange};
ghost use Rattle.def_iface.specs.WindowNews.{AllWindowNews, no_news, told_all, told_change};
ghost use Rattle.def_iface.specs.WindowMeaning.{WindowDefinition, WindowHears};

/// What a definition shows once it is told all there is to tell, no earlier news change: it is a function of the six
/// alone, for as long as the definition lives.
#[tactic(auto, using(crate::proofs::Hearing::later_news_count))]
pub fn all_news_leave_no_trace_of_earlier_ones()
    ensures { (change : WindowChange) (old new : WindowDefinition) → WindowHears (told_change change) old new
        → (all : AllWindowNews) (font : List ℕ) (p : Point)
        → new.picture (told_all all no_news) font p ≡ old.picture (told_all all no_news) font p }
{}
