// The selectors of a plant, by their mode counts.
ghost use Rattle.std.specs.Prelude.{◌≡◌, List, ◌≤◌, length};
ghost use Rattle.semantics.specs.Sections.{Selector};
ghost use Rattle.semantics.specs.Plant.{mode_exists_in};
ghost use Rattle.plant.specs.ModeCounts.{ModesAt};

// selector c is there and has mode m
pub fn mode_exists(c: usize, m: usize, selectors: usize, modes: &[usize]) -> bool
    requires { selectors ≤ length modes.now }
    ensures { (cs : List Selector) → ModesAt modes.now selectors cs → result ≡ mode_exists_in cs c m }
{
    c < selectors && m < modes[c]
}
