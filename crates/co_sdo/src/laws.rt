//! Laws of an SDO server.

ghost use Rattle.std.specs.Prelude.{ℕ, List};
ghost use Rattle.co_dict.specs.Shapes.{Shaped};
ghost use Rattle.co_dict.specs.Values.{Values};
ghost use Rattle.co_sdo.specs.declared.transfer.Transfer.{Transfer as opened};
ghost use Rattle.co_sdo.specs.Server.{LeavesOnAbort, WritesOne, server_answer};

/// A request writes one entry at most: the one that the server tells, by bytes that the write check
/// takes. Where it tells none, all values stay.
#[tactic(auto, using(crate::proofs::WroteLaws::wrote_one))]
pub fn a_request_writes_what_was_checked()
    ensures { (shape : Shaped) (values : Values) (transfer : opened) (request : List ℕ)
        → WritesOne shape values (server_answer shape values transfer request) }
{}

/// An abort of the server drops the open transfer and leaves all values.
#[tactic(auto, using(crate::proofs::WroteLaws::aborts))]
pub fn an_abort_drops_the_transfer()
    ensures { (shape : Shaped) (values : Values) (transfer : opened) (request : List ℕ)
        → LeavesOnAbort values (server_answer shape values transfer request) }
{}
