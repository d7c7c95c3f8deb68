// The start that a schedule file itself gives.
ghost use Rattle.std.specs.Prelude.{◌≡◌};
ghost use Rattle.semantics.specs.Editions.{edition1};
ghost use Rattle.initial_start.specs.Held.{held};
ghost use Rattle.initial_start.specs.Initial.{schedule_start};

use super::Start;
use edition::Edition;

// none where the file is refused
pub fn start(file: &[u8]) -> Start
    ensures { result ≡ held (schedule_start edition1 file.now) }
{
    let Ok(x) = schedule_read::call::index(file, Edition::First) else {
        return super::none();
    };
    super::of(x.parts.variables.of(file), x.parts.equations.of(file))
}
