//! Laws of an SDO client and a server together.

ghost use Rattle.std.specs.Prelude.{◌≡◌, ◌<◌, ℕ, List, length, Some, Ok};
ghost use Rattle.std.specs.FinMap as map;
ghost use Rattle.co_dict.specs.Checks.{read_check};
ghost use Rattle.co_dict.specs.Shapes.{Shaped};
ghost use Rattle.co_dict.specs.Values.{Values, bytes_at};
ghost use Rattle.co_dict.specs.WriteCheck.{write_check};
ghost use Rattle.sdo_client.specs.declared.progress.Progress.TheVariants.{Read as read, Written as written};
ghost use Rattle.sdo_client.specs.declared.client_transfer.ClientTransfer.TheVariants.{Uploading as uploading};
ghost use Rattle.co_sdo.specs.declared.transfer.Transfer.{Transfer as opened};
ghost use Rattle.sdo_client.specs.Client.{download_start};
ghost use Rattle.sdo_client.specs.Exchanges.{Answers, Begins, Follows, GivesOf, outcome_of};
ghost use Rattle.co_sdo.specs.Frames.{download_frames, upload_frames, upload_request};

/// The client sends the frames of a download, each further one on the answer before it, and ends with
/// `Written`. The server gives the answers beside them where the write check takes the value, and in
/// the end the entry has it and no transfer is open.
#[tactic(auto, using(crate::proofs::DownloadLaws::client_downloads, crate::proofs::DownloadLaws::server_downloads))]
pub fn a_download_is_its_frames()
    ensures first { (place : ℕ × ℕ) (value : List ℕ) → place.0 < 0x10000
        → Begins (download_start place value).0 (download_frames place value) }
    ensures client { (place : ℕ × ℕ) (value : List ℕ) → place.0 < 0x10000
        → Follows (download_start place value).1 (download_frames place value) written }
    ensures server { (shape : Shaped) (values : Values) (transfer : opened) (place : ℕ × ℕ) (value : List ℕ)
        → place.0 < 0x10000
        → write_check shape values place value ≡ Ok tt
        → Answers shape values transfer (download_frames place value) (map.insert values place value) }
{}

/// The client sends the frames of an upload, and ends with the value. The server gives the answers
/// beside them with the value that the entry had at the first, and writes nothing, also where the
/// entry is written meanwhile.
#[tactic(auto, using(crate::proofs::UploadLaws::client_uploads, crate::proofs::UploadLaws::server_uploads))]
pub fn an_upload_is_its_frames()
    ensures first { (place : ℕ × ℕ) (value : List ℕ) → place.0 < 0x10000 → length value < 0x100000000
        → Begins (upload_request place) (upload_frames place value) }
    ensures client { (place : ℕ × ℕ) (value : List ℕ) → place.0 < 0x10000 → length value < 0x100000000
        → Follows (uploading place) (upload_frames place value) (read value) }
    ensures server { (shape : Shaped) (values : Values) (transfer : opened) (place : ℕ × ℕ) (value : List ℕ)
        → place.0 < 0x10000
        → read_check shape place ≡ Ok tt → bytes_at values place ≡ value
        → GivesOf shape values transfer (upload_frames place value) }
{}

/// A download of a value that the write check takes, with no other call between, ends with `Written`,
/// and the entry has the value.
#[tactic(auto, using(crate::proofs::PlayLaws::download_played))]
pub fn an_accepted_download_is_written()
    ensures { (shape : Shaped) (values : Values) (transfer : opened) (place : ℕ × ℕ) (value : List ℕ)
        → place.0 < 0x10000
        → write_check shape values place value ≡ Ok tt
        → outcome_of (length (download_frames place value)) shape values transfer (download_start place value).1
        (download_start place value).0
        ≡ record { told = Some written; values = map.insert values place value } }
{}

/// An upload of an entry that may be read, with no other call between, ends with the value that it has.
#[tactic(auto, using(crate::proofs::PlayLaws::upload_played))]
pub fn an_upload_reads_the_value()
    ensures { (shape : Shaped) (values : Values) (transfer : opened) (place : ℕ × ℕ) (value : List ℕ)
        → place.0 < 0x10000
        → length value < 0x100000000 → read_check shape place ≡ Ok tt → bytes_at values place ≡ value
        → outcome_of (length (upload_frames place value)) shape values transfer (uploading place) (upload_request place)
        ≡ record { told = Some (read value); values = values } }
{}
