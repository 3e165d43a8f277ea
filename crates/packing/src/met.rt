// Whether a request can be met.
ghost use Rattle.std.specs.Prelude.{◌≡◌};
ghost use Rattle.multi_pg.specs.Services.{is_service};
ghost use Rattle.packing.specs.Packing.{request_of, services_ok, pgns_ok, fitted, first_fault};

use super::Request;
use super::trailer::all_formats;
use frame::pgn::is_pgn;
use frame::refusal::Refusal;

fn is_service(service: u8) -> bool
    ensures { result ≡ is_service service }
{
    (service == 1) | (service == 2)
}

// Whether every number of the list is a service type that has groups.
fn all_services(services: &[u8]) -> bool
    ensures { result ≡ services_ok services.now }
{
    services.iter().all(|s| is_service(*s))
}

// Whether every number of the list is a PGN.
pub fn all_pgns(pgns: &[u32]) -> bool
    ensures { result ≡ pgns_ok pgns.now }
{
    pgns.iter().all(|p| is_pgn(*p))
}

impl<'a> Request<'a> {
    // How many bytes the groups need, where none of the cases of 24 applies.
    pub(crate) fn fitting(self, out: usize) -> Option<usize>
        ensures { result ≡ fitted (request_of self.entry) out }
    {
        let n = self.pgns.len();
        if 16 < n {
            return None;
        }
        if !((self.services.len() == n)
            & (self.formats.len() == n)
            & (self.lengths.len() == n)
            & (self.trailers.len() == n))
        {
            return None;
        }
        let bytes = self.added_up()?;
        let need = 4 * n + bytes.data + bytes.tails;
        if 64 < need {
            return None;
        }
        if !((self.data.len() == bytes.data) & (self.assured.len() == bytes.tails) & (out == 64)) {
            return None;
        }
        Some(need)
    }

    // The number of a request that does not fit: the first of the checks that it fails, 24 being the last.
    pub(crate) fn first_fault(self) -> Refusal
        ensures { result ≡ first_fault self.entry.services.now self.entry.formats.now self.entry.pgns.now }
    {
        if !all_services(self.services) {
            return Refusal::ServiceType;
        }
        if !all_formats(self.services, self.formats) {
            return Refusal::TrailerFormat;
        }
        if !all_pgns(self.pgns) {
            return Refusal::PgnForm;
        }
        Refusal::PackRequest
    }
}
