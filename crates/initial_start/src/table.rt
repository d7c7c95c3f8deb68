// The start that a table itself gives.
ghost use Rattle.std.specs.Prelude.{◌≡◌};
ghost use Rattle.semantics.specs.Editions.{edition1};
ghost use Rattle.initial_start.specs.Held.{held};
ghost use Rattle.initial_start.specs.Initial.{table_start};

use super::Start;
use edition::Edition;

// none where 15 to 19 refuse the table
pub fn start(table: &[u8]) -> Start
    ensures { result ≡ held (table_start edition1 table.now) }
{
    let Ok(x) = table_read::call::index(table, Edition::First) else {
        return super::none();
    };
    super::of(x.parts.variables.of(table), x.parts.equations.of(table))
}
