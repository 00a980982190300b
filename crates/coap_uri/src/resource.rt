//! The resource that an address names, in the form that requests use.
ghost use Rattle.std.specs.Prelude.{◌≡◌, ◌≤◌, IfErr, IfOk, length};
ghost use Rattle.std.specs.List.{All};
ghost use Rattle.coap_client.specs.Paths.{slices_in};
ghost use Rattle.coap_uri.specs.Addresses.{texts_in};
ghost use Rattle.coap_uri.specs.Resources.{HasLongArgument, IsNoResource, IsResourceOf};

use crate::address::Address;
use coap_client::{Path, PathError, RequestTarget};
use std::alloc::{AllocError, Global};

/// Maximum number of bytes in an argument of a query (RFC 7252, section 5.10).
const ARGUMENT: usize = 255;

/// The reason why an address names no resource.
#[derive(Clone, Copy, Debug, PartialEq, Eq)]
pub enum ResourceError {
    /// The address's path is not a path of segments.
    Path(PathError),
    /// An argument of the query has more than 255 bytes (RFC 7252, section 5.10).
    Argument,
    /// Memory for the arguments of the query can't be allocated.
    NoMemory,
}

impl From<PathError> for ResourceError {
    ghost use Rattle.std.specs.Prelude.{◌≡◌};
    ghost use Rattle.coap_uri.specs.declared.resource.ResourceError.TheVariants as resource_error;

    ghost from_gives = { λ fault error. error ≡ resource_error.Path fault };

    fn from(fault: PathError) -> ResourceError {
        ResourceError::Path(fault)
    }
}

/// Returns the resource of an address.
///
/// The resource has the segments of the address's path, and the arguments of the address's query.
/// The text of the path has a slash before each segment.
///
/// # Errors
/// Returns the reason why the address names no resource.
pub fn resource_of(alloc: Global, address: &Address) -> Result<RequestTarget<'_>, ResourceError>
    ensures resource { IfOk result (IsResourceOf address.entry.now) }
    ensures none { IfErr result (IsNoResource address.entry.now) }
{
    Ok(RequestTarget {
        path: Path::parse(alloc, &address.path)?,
        query: arguments_of(alloc, &address.query)?,
    })
}

// Returns the arguments of a query. Returns `ResourceError::Argument` if one has more than 255
// bytes, and `ResourceError::NoMemory` if memory can't be allocated.
fn arguments_of(alloc: Global, query: &[Vec<u8>]) -> Result<Vec<&[u8]>, ResourceError>
    ensures arguments { IfOk result (λ v. slices_in v.items ≡ texts_in query.entry.now) }
    ensures short { IfOk result (λ v. All (λ argument. length argument ≤ 255) (texts_in query.entry.now)) }
    ensures long { IfErr result (HasLongArgument query.entry.now) }
{
    let mut arguments = Vec::new(alloc);
    for argument in query {
        if argument.len() > ARGUMENT {
            return Err(ResourceError::Argument);
        }
        if arguments.push(argument.as_slice()).is_err() {
            return Err(ResourceError::NoMemory);
        }
    }
    Ok(arguments)
}
