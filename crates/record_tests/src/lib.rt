//! What no clause says of menus, controls and lists as plain data, and of the outlines of `overlay`, by tests: that calls
//! succeed where memory is not refused, and that the words of the contracts are those of the Menu Manager, the Control Manager and
//! the List Manager. Expected values are tables written by hand, and never come from the libraries.
//!
//! `menus` tests `menu_record`, `menu_lists` tests `menu_list`, and `outlines` the outlines of `overlay`. `controls` tests
//! `control_values`, `cells` tests `list_cells`, and `views` tests `list_view`. `items` tests `window_items`, in which the controls
//! and the lists of windows lie.
#![tactic(auto)]

/// A cell, by its column and its row.
#[cfg(test)]
macro_rules! cell {
    ($column:expr, $row:expr) => {
        list_cells::Cell {
            column: $column,
            row: $row,
        }
    };
}

#[cfg(test)]
mod cells;
#[cfg(test)]
mod controls;
#[cfg(test)]
mod items;
#[cfg(test)]
mod menu_lists;
#[cfg(test)]
mod menus;
#[cfg(test)]
mod outlines;
#[cfg(test)]
mod views;
