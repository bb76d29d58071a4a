//! Laws of a download between a client and a server, request by request, each a function whose contract is the law.

ghost use Rattle.std.specs.Prelude.{◌≡◌, ℕ, List, Some};
ghost use Rattle.co_dict.specs.Shapes.{Shaped};
ghost use Rattle.co_dict.specs.Values.{Values};
ghost use Rattle.co_sdo.specs.Server.{server_answer};
ghost use Rattle.co_sdo.specs.declared.transfer.Transfer.{Transfer as opened};
ghost use Rattle.co_sdo.specs.declared.transfer.Transfer.TheVariants as server;
ghost use Rattle.sdo_client.specs.Client.{download_start};
ghost use Rattle.sdo_client.specs.declared.client_transfer.ClientTransfer.{ClientTransfer as awaiting};
ghost use Rattle.network_laws.specs.Downloads.{IsAnswered, IsUnderWay};

/// The client starts a download with its first request, whatever the server has open.
pub fn a_download_starts_with_its_first_request()
    ensures { (place : ℕ × ℕ) (value : List ℕ) (transfer : opened)
        → IsUnderWay place value (download_start place value).1 transfer (download_start place value).0 }
{}

/// A request that is under way stays so where the server drops its transfer.
pub fn a_dropped_transfer_leaves_the_request()
    ensures { (place : ℕ × ℕ) (value : List ℕ) (stage : awaiting) (transfer : opened) (request : List ℕ)
        → IsUnderWay place value stage transfer request → IsUnderWay place value stage server.Idle request }
{}

/// The server's answer to a request of a download, whatever entries it has and whatever values: where it tells the
/// client that the download is written, the server has stored the value in the entry, and nothing else; where the
/// client asks on, the server has stored nothing, and the client's next request is again one of the download.
#[tactic(auto, using(crate::proofs::RequestLaws::request_by_request))]
pub fn a_download_goes_request_by_request()
    ensures { (shape : Shaped) (values : Values) (place : ℕ × ℕ) (value : List ℕ) (stage : awaiting)
        (transfer : opened) (request answer : List ℕ)
        → IsUnderWay place value stage transfer request
        → (server_answer shape values transfer request).answer ≡ Some answer
        → IsAnswered place value stage values (server_answer shape values transfer request) answer }
{}
