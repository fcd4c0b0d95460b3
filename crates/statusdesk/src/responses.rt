//! Responses that statusweb has none of: a refusal by its code, and the way to a page.
ghost use Rattle.std.specs.Prelude.{OnOk};
ghost use Rattle.http_server.specs.Response.{IsBlank};
ghost use Rattle.statusdesk.specs.Responses.{IsRefusedWith, IsSentTo};

use http::header::{ALLOW, LOCATION};
use http::{HeaderValue, StatusCode};
use http_server::Response;
use std::alloc::{AllocError, Global};
use web_connections::refuse;

/// Refuses a request with the status of this code.
pub fn refuse_with(response: &mut Response, code: u16, alloc: Global) -> Result<(), AllocError>
    requires { IsBlank response.old }
    ensures { OnOk result (IsRefusedWith code response.new) }
{
    let Ok(status) = StatusCode::from_u16(code) else {
        return Err(AllocError);
    };
    refuse(response, status, alloc)?;
    if code == 405 {
        response.add_header(ALLOW, HeaderValue::from_static("POST"))?;
    }
    Ok(())
}

/// Sends a browser to a page (303).
pub fn send_to(response: &mut Response, location: &[u8], alloc: Global) -> Result<(), AllocError>
    requires { IsBlank response.old }
    ensures { OnOk result (IsSentTo location.now response.new) }
{
    let Ok(value) = HeaderValue::from_bytes(alloc, location) else {
        return Err(AllocError);
    };
    refuse(response, StatusCode::SEE_OTHER, alloc)?;
    response.add_header(LOCATION, value)
}
