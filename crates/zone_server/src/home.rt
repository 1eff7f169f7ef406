//! Which zones a server has, as its type says.
use qp_multi::Named;
use std::marker::Brand;

/// What a server was opened with. Nothing of it is ever made: a server has it in its type, and so have its passes and notes, so that those of
/// another server aren't taken.
pub trait Home: Named {
    ghost use Rattle.std.specs.Prelude.{List};
    ghost use Rattle.zone_server.specs.Homes.{Served};

    ghost zones: { List Served };
}

impl Home for Brand {
    ghost use Rattle.std.specs.Prelude.{[]};

    ghost zones = { [] };
}
