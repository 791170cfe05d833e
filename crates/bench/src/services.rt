ghost use Rattle.std.specs.Prelude.{◌≡◌};
ghost use Rattle.bench.specs.Services.{service_of};

// What a request asks of the unit.
#[derive(Clone, Copy)]
pub enum Service {
    ListCodes,
    ClearCodes,
}

// The service that a request asks for, if it is one.
pub fn service_of(request: &[u8]) -> Option<Service>
    ensures { result ≡ service_of request.now }
{
    match request {
        [0x03] => Some(Service::ListCodes),
        [0x04] => Some(Service::ClearCodes),
        _ => None,
    }
}
