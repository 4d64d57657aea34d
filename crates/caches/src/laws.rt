// What holds of the caches whatever the map and the history: each function does nothing, and its contract states a law.
ghost use Rattle.setmap.specs.Mapping.{Mapping, Lawful};
ghost use Rattle.caches.specs.Caches.{History};
ghost use Rattle.caches.specs.Includes.{Includes};
ghost use Rattle.caches.specs.Partition.{AddsUp};
ghost use Rattle.caches.specs.Views.{ViewsTell, ViewsDecide};

// A cache of more ways, at the same level or a later one, holds what a smaller one holds.
pub fn larger_caches_include()
    ensures { (m : Mapping) → Lawful m → (h : History) → Includes m h }
{}

// Every reference of a processor is a hit, cold, lost or replaced.
pub fn references_add_up()
    ensures { (m : Mapping) (h : History) → AddsUp m h }
{}

// The figures of a level are sums over its sets of figures that the views of the sets tell.
pub fn views_tell_figures()
    ensures { ViewsTell }
{}

// Equal views of every set of a level give equal figures.
pub fn views_decide_figures()
    ensures { ViewsDecide }
{}
