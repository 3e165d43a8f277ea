// What the lists say of trailers, and whether a reader takes it.
ghost use Rattle.std.specs.Prelude.{◌≡◌, ◌≤◌, length, IfSome};
ghost use Rattle.multi_pg.specs.Services.{service_of, is_group, has_trailer};
ghost use Rattle.packing.specs.Packing.{formats_ok, sums_of};

use super::Request;
use multi_pg::header::service_by;

fn is_format(service: u8, format: u8) -> bool
    ensures { result ≡ is_group (service_of service format) }
{
    matches!(service_by(service, format), Ok(Some(_)))
}

fn is_trailer(service: u8, format: u8, bytes: u8) -> bool
    ensures { result ≡ has_trailer (service_of service format) bytes }
{
    matches!(service_by(service, format), Ok(Some(n)) if n == usize::from(bytes))
}

// Whether every pair of a service type and a trailer format has groups, up to the shorter list.
pub fn all_formats(services: &[u8], formats: &[u8]) -> bool
    ensures { result ≡ formats_ok services.now formats.now }
{
    services.iter().zip(formats).all(|(s, f)| is_format(*s, *f))
}

// How many bytes of data the groups have, and how many of trailers.
#[derive(Clone, Copy)]
pub struct Sums {
    pub data: usize,
    pub tails: usize,
}

impl<'a> Request<'a> {
    // The sums of the lengths of at most 16 groups, where each trailer is as long as its format has it.
    pub(crate) fn added_up(self) -> Option<Sums>
        requires { (length self.services.now ≡ length self.trailers.now) × (length self.formats.now ≡ length self.trailers.now) × (length self.lengths.now ≡ length self.trailers.now) × (length self.trailers.now ≤ 16) }
        ensures sums { result ≡ sums_of self.entry.services.now self.entry.formats.now self.entry.lengths.now self.entry.trailers.now }
        ensures bounded { IfSome result (λ s. (s.«data» ≤ 4080) × (s.tails ≤ 4080)) }
    {
        let mut data: usize = 0;
        let mut tails: usize = 0;
        for i in 0..self.trailers.len() {
            if !is_trailer(self.services[i], self.formats[i], self.trailers[i]) {
                return None;
            }
            data += usize::from(self.lengths[i]);
            tails += usize::from(self.trailers[i]);
        }
        Some(Sums { data, tails })
    }
}
