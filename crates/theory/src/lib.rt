// What every list of calls on a study keeps to, whatever the map and the settings: the function does nothing, and its contract states the theorem.
#![tactic(auto)]

ghost use Rattle.setmap.specs.Mapping.{Mapping, Lawful};
ghost use Rattle.tables.specs.declared.Settings.{Settings};
ghost use Rattle.theory.specs.Faithful.{Faithful};

// Whatever is called, in whatever order and with whatever tables, a study answers as the separate caches do.
pub fn every_run_is_faithful()
    ensures { (m : Mapping) → Lawful m → (s : Settings) → Faithful m s }
{}
