//! Laws about the definitions.
//!
//! Each law is the contract of an empty function.
ghost use Rattle.std.specs.Prelude.{◌≡◌, [], ◌∷◌, None, Some, codes};
ghost use Rattle.std.specs.List.{after_first, before_first};
ghost use Rattle.std.specs.Net.Addr.{ipv4_octets};
ghost use Rattle.std.specs.Net.Socket.{v4_ip, v4_port};
ghost use Rattle.url.specs.Parts.{Parts};
ghost use Rattle.coap_uri.specs.Addresses.{HasParts, IsNoAddress, IsNoUri, is_question, plain_pieces};
ghost use Rattle.coap_uri.specs.declared.address.AddressError.{AddressError};
ghost use Rattle.coap_uri.specs.declared.address.AddressError.TheVariants.{NoMemory, NoPort, TwoPorts};
ghost use Rattle.coap_uri.specs.declared.address.Address.{Address};

/// A URI without a port has port 5683 (RFC 7252, section 6.1).
pub fn a_uri_without_a_port_is_of_port_5683()
    ensures { (uri : Parts) (a : Address) → HasParts uri a → uri.port ≡ None → v4_port a.server ≡ 5683 }
{}

/// `localhost` is 127.0.0.1, and no other address.
pub fn localhost_is_one_address()
    ensures { (uri : Parts) (a : Address) (h : HasParts uri a) → h.name ≡ codes "localhost"
        → ipv4_octets (v4_ip a.server) ≡ 127 ∷ 0 ∷ 0 ∷ 1 ∷ [] }
{}

/// A path is given with a port, and a URI without one.
///
/// `/r/1` and `/a://b` are paths, and `coap://[::1]/r/1` is a URI.
pub fn a_path_has_a_port_and_a_uri_has_none()
    ensures path { (error : AddressError) → IsNoAddress (codes "/r/1") None error → error ≡ NoPort }
    ensures slashed { (error : AddressError) → IsNoAddress (codes "/a://b") None error → error ≡ NoPort }
    ensures with_port { (error : AddressError) → IsNoAddress (codes "/a://b") (Some 7) error → error ≡ NoMemory }
    ensures uri { (error : AddressError) → IsNoAddress (codes "coap://[::1]/r/1") (Some 7) error → error ≡ TwoPorts }
    ensures alone { (error : AddressError) → IsNoAddress (codes "coap://[::1]/r/1") None error → IsNoUri (codes "coap://[::1]/r/1") error }
{}

/// In a path at a port, the path ends before the first `?`.
///
/// After the `?`, `&` separates the arguments of the query. `/r/1?a=1&b?` is the path `/r/1` with
/// the arguments `a=1` and `b?`.
pub fn a_path_ends_at_its_query()
    ensures path { before_first is_question (codes "/r/1?a=1&b?") ≡ codes "/r/1" }
    ensures query { plain_pieces 38 (after_first is_question (codes "/r/1?a=1&b?")) ≡ codes "a=1" ∷ codes "b?" ∷ [] }
    ensures none { plain_pieces 38 (after_first is_question (codes "/r/1")) ≡ [] }
{}
