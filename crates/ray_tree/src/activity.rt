//! Which items are active, and whether numbers are those of active items.
ghost use Rattle.std.specs.Prelude.{◌≡◌, ◌↔◌, ◌<◌, IsTrue};
ghost use Rattle.std.specs.List.{All};
ghost use Rattle.ray_tree.specs.Trees.{active_of};
ghost use Rattle.ray_tree.specs.Local.{IsActive, HasItems};

use ray_geom::Box3;

/// How many items are active. (Own.)
pub fn count_active(items: &[Option<Box3>]) -> usize
    ensures { result ≡ active_of items.now }
{
    items.iter().filter(|item| item.is_some()).count()
}

/// Whether there are as many numbers as active items, of which there are so many, and all of them
/// are numbers of active items. (Own.)
pub fn has_items(order: &[u32], items: &[Option<Box3>], active: usize) -> bool
    requires { active ≡ active_of items.now }
    ensures { IsTrue result ↔ HasItems order.now items.now }
{
    order.len() == active && are_active(order, items, active)
}

// Whether all of these numbers are those of active items, of which there are so many. Where all
// items are active none is looked at for it.
fn are_active(order: &[u32], items: &[Option<Box3>], active: usize) -> bool
    requires { active ≡ active_of items.now }
    ensures { IsTrue result ↔ All (IsActive items.now) order.now }
{
    if active == items.len() {
        are_below(order, items.len())
    } else {
        are_each_active(order, items)
    }
}

// Whether all of these numbers are below one.
fn are_below(order: &[u32], count: usize) -> bool
    ensures { IsTrue result ↔ All (λ p. p < count) order.now }
{
    order.iter().all(|p| (*p as usize) < count)
}

// Whether all of these numbers are those of active items, by the items.
fn are_each_active(order: &[u32], items: &[Option<Box3>]) -> bool
    ensures { IsTrue result ↔ All (IsActive items.now) order.now }
{
    order.iter().all(|p| is_active(items, *p))
}

// Whether a number is that of an active item.
fn is_active(items: &[Option<Box3>], p: u32) -> bool
    ensures { IsTrue result ↔ IsActive items.now p }
{
    match items.get(p as usize) {
        Some(item) => item.is_some(),
        None => false,
    }
}
