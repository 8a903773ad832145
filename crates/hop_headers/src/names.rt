//! The names that hop headers and their entries use.

ghost use Rattle.std.specs.Prelude.{◌≡◌};
ghost use Rattle.hop_headers.specs.Names.{name_text};

/// A name of a header, of an argument, or of a value in one of their entries.
#[derive(Clone, Copy)]
pub(crate) enum FieldName {
    /// The header: where a message came from.
    ReceivedFrom,
    /// The argument: where a binding came from.
    BoundFrom,
    ClusterName,
    Vhost,
    Exchange,
    Queue,
    Redelivered,
    VisitCount,
    /// How many places further a binding goes.
    Hops,
}

impl FieldName {
    /// The name as tables have it.
    #[tactic(auto, unfolding(crate::specs::Names::received_from_name, crate::specs::Names::bound_from_name, crate::specs::Names::cluster_name, crate::specs::Names::vhost_name, crate::specs::Names::exchange_name, crate::specs::Names::queue_name, crate::specs::Names::redelivered_name, crate::specs::Names::visit_count_name, crate::specs::Names::hops_name))]
    pub(crate) fn text(self) -> &'static str
        ensures { result.now ≡ name_text self }
    {
        match self {
            FieldName::ReceivedFrom => "x-received-from",
            FieldName::BoundFrom => "x-bound-from",
            FieldName::ClusterName => "cluster-name",
            FieldName::Vhost => "vhost",
            FieldName::Exchange => "exchange",
            FieldName::Queue => "queue",
            FieldName::Redelivered => "redelivered",
            FieldName::VisitCount => "visit-count",
            FieldName::Hops => "hops",
        }
    }
}
