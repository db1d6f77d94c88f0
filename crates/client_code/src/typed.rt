ghost use Rattle.std.specs.Prelude.{◌≡◌};
ghost use Rattle.client_code.specs.Clients.{OfTree};

use crate::client::Client;
use seg_layout::TypeTable;

/// A client with its types as a table.
#[derive(Drop)]
pub struct TypedClient<'a> {
    pub client: Client<'a>,
    pub types: TypeTable,
    ghost same_types: { OfTree client (λ tree. types ≡ tree.types) },
}

impl<'a> TypedClient<'a> {
    /// The client with the types in its file.
    pub fn of(client: Client<'a>) -> TypedClient<'a>
        ensures { result.client ≡ client.entry }
    {
        let types = client.types();
        TypedClient { client, types }
    }
}
