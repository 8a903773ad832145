//! A whole definitions file.
ghost use Rattle.std.specs.Prelude.{◌≡◌, ◌≢◌, [], ◌∷◌, None, Some, IfOk, OnOk, IfErr, codes, option_map, unwrap_or};
ghost use Rattle.serde_json.specs.Find.{as_array};
ghost use Rattle.serde_json.specs.View.{view, items_view};
ghost use Rattle.defs_lists.specs.Bindings as bindings;
ghost use Rattle.defs_lists.specs.Exchanges as exchanges;
ghost use Rattle.defs_file.specs.File as file;
ghost use Rattle.defs_lists.specs.Lists as lists;
ghost use Rattle.defs_lists.specs.ParameterItems as parameters;
ghost use Rattle.defs_lists.specs.PolicyItems as policies;
ghost use Rattle.defs_lists.specs.Queues as queues;
ghost use Rattle.defs_lists.specs.Vhosts as hosts;
ghost use Rattle.defs_values.specs.Keys.{optional_fault};
ghost use Rattle.defs_lists.specs.PlacedItems.{AreDistinct};

use crate::assembly::{ObjectLists, assemble};
use crate::kept_text::kept_text;
use amqp_props::Text;
use defs_lists::bindings::{BindingList, Objects, read_bindings};
use defs_lists::clusters::read_cluster;
use defs_lists::exchanges::{ExchangeList, read_exchanges};
use defs_lists::names::{Names, Word};
use defs_lists::parameters::{ParameterList, read_parameters};
use defs_lists::placed::Placed;
use defs_lists::policies::{PolicyList, read_policies};
use defs_lists::queues::{QueueList, read_queues};
use defs_lists::vhosts::{read_vhosts, vhost_named};
use defs_values::fault::{DefFault, KeyFault};
use defs_values::inert::add;
use defs_values::keys::{refused, value_of};
use defs_values::value::misfit;
use fed_defs::{
    BrokerConfig, ExchangeDef, ParameterDef, PolicyDef, QueueDef, Sequence, VhostConfig,
};
use serde_json::Value;
use std::alloc::{AllocError, Global};

/// What a definitions file holds.
#[derive(Drop)]
pub struct Definitions {
    /// The broker with its virtual hosts.
    pub broker: BrokerConfig,
    /// How many queues, exchanges and bindings of links, and streams with theirs, are passed over.
    pub passed_over: u32,
    /// How many keys, parameters and flags have no effect.
    pub inert: u32,
}

/// The items of the list at the key, where there is one.
#[tactic(auto, unfolding(defs_values::specs::Keys::optional_fault, crate::specs::File::list_refusal))]
fn items_at<'v>(alloc: Global, value: &'v Value, key: &str) -> Result<Option<&'v [Value]>, KeyFault>
    ensures read { IfOk result (λ items. option_map (λ vs. items_view vs.now) items
        ≡ lists.list_of key.now (view value.now)) }
    ensures ok { OnOk result (optional_fault file.list_refusal key.now (view value.now) ≡ None) }
    ensures fault { IfErr result (λ fault. fault ≢ KeyFault.Memory
        → optional_fault file.list_refusal key.now (view value.now) ≡ Some fault) }
{
    let Some(found) = value_of(value, key) else {
        return Ok(None);
    };
    match found.as_array() {
        Some(items) => Ok(Some(items.as_slice())),
        None => Err(refused(alloc, key, misfit(found))),
    }
}

/// The virtual host `/` alone.
#[tactic(auto, unfolding(defs_lists::specs::Names::has_name))]
fn only_host(alloc: Global) -> Result<Names, KeyFault>
    ensures hosts { IfOk result (λ names. hosts.AreHosts names) }
    ensures distinct { IfOk result (λ names. AreDistinct names) }
    ensures only { IfOk result (λ names. names ≡ hosts.vhost_named (codes "/") ∷ []) }
    ensures fault { IfErr result (λ fault. fault ≡ KeyFault.Memory) }
{
    let mut names = Names::new(alloc);
    let word = Word::from_str(alloc, "/")?;
    names.add(vhost_named(alloc, word))?;
    Ok(names)
}

/// Reads the virtual hosts; without their list there is `/` alone.
#[tactic(auto, unfolding(crate::specs::File::vhosts_list_fault, crate::specs::File::list_fault_at, crate::specs::File::file_vhosts, defs_lists::specs::Names::has_name))]
fn vhosts_at(alloc: Global, value: &Value) -> Result<Names, KeyFault>
    ensures hosts { IfOk result (λ names. hosts.AreHosts names) }
    ensures distinct { IfOk result (λ names. AreDistinct names) }
    ensures read { IfOk result (λ names. names ≡ file.file_vhosts (view value.now)) }
    ensures ok { OnOk result (file.vhosts_list_fault (view value.now) ≡ None) }
    ensures fault { IfErr result (λ fault. fault ≢ KeyFault.Memory
        → file.vhosts_list_fault (view value.now) ≡ Some fault) }
{
    match items_at(alloc, value, "vhosts")? {
        Some(items) => read_vhosts(alloc, items),
        None => only_host(alloc),
    }
}

/// Reads the name of the cluster.
#[tactic(auto, unfolding(crate::specs::File::globals_list_fault, crate::specs::File::list_fault_at, crate::specs::File::file_cluster))]
fn cluster_at(alloc: Global, value: &Value) -> Result<Option<Text>, KeyFault>
    ensures read { IfOk result (λ name. name ≡ file.file_cluster (view value.now)) }
    ensures ok { OnOk result (file.globals_list_fault (view value.now) ≡ None) }
    ensures fault { IfErr result (λ fault. fault ≢ KeyFault.Memory
        → file.globals_list_fault (view value.now) ≡ Some fault) }
{
    match items_at(alloc, value, "global_parameters")? {
        Some(items) => read_cluster(alloc, items),
        None => Ok(None),
    }
}

/// Reads the parameters.
#[tactic(auto, unfolding(crate::specs::File::parameters_list_fault, crate::specs::File::list_fault_at, crate::specs::File::file_parameters))]
fn parameters_at(alloc: Global, vhosts: &Names, value: &Value) -> Result<ParameterList, KeyFault>
    ensures kept { IfOk result (λ list. list.kept.items ≡ file.file_parameters (view value.now)) }
    ensures inert { IfOk result (λ list. list.inert ≡ parameters.parameters_inert (lists.items_at (codes "parameters") (view value.now))) }
    ensures ok { OnOk result (file.parameters_list_fault vhosts.now (view value.now) ≡ None) }
    ensures fault { IfErr result (λ fault. fault ≢ KeyFault.Memory
        → file.parameters_list_fault vhosts.now (view value.now) ≡ Some fault) }
{
    match items_at(alloc, value, "parameters")? {
        Some(items) => read_parameters(alloc, vhosts, items),
        None => read_parameters(alloc, vhosts, &[]),
    }
}

/// Reads the policies.
#[tactic(auto, unfolding(crate::specs::File::policies_list_fault, crate::specs::File::list_fault_at, crate::specs::File::file_policies))]
fn policies_at(alloc: Global, vhosts: &Names, value: &Value) -> Result<PolicyList, KeyFault>
    ensures kept { IfOk result (λ list. list.kept.items ≡ file.file_policies (view value.now)) }
    ensures inert { IfOk result (λ list. list.inert ≡ policies.policies_inert (lists.items_at (codes "policies") (view value.now))) }
    ensures ok { OnOk result (file.policies_list_fault vhosts.now (view value.now) ≡ None) }
    ensures fault { IfErr result (λ fault. fault ≢ KeyFault.Memory
        → file.policies_list_fault vhosts.now (view value.now) ≡ Some fault) }
{
    match items_at(alloc, value, "policies")? {
        Some(items) => read_policies(alloc, vhosts, items),
        None => read_policies(alloc, vhosts, &[]),
    }
}

/// Reads the queues.
#[tactic(auto, unfolding(crate::specs::File::queues_list_fault, crate::specs::File::list_fault_at, crate::specs::File::file_queues))]
fn queues_at(alloc: Global, vhosts: &Names, value: &Value) -> Result<QueueList, KeyFault>
    ensures kept { IfOk result (λ list. list.kept.items ≡ file.file_queues (view value.now)) }
    ensures names { IfOk result (λ list. list.names ≡ queues.queue_names (lists.items_at (codes "queues") (view value.now))) }
    ensures passed { IfOk result (λ list. list.passed ≡ queues.passed_queues [] (lists.items_at (codes "queues") (view value.now))) }
    ensures over { IfOk result (λ list. list.over ≡ queues.passed_queue_count (lists.items_at (codes "queues") (view value.now))) }
    ensures inert { IfOk result (λ list. list.inert ≡ queues.queues_inert (lists.items_at (codes "queues") (view value.now))) }
    ensures ok { OnOk result (file.queues_list_fault vhosts.now (view value.now) ≡ None) }
    ensures fault { IfErr result (λ fault. fault ≢ KeyFault.Memory
        → file.queues_list_fault vhosts.now (view value.now) ≡ Some fault) }
{
    match items_at(alloc, value, "queues")? {
        Some(items) => read_queues(alloc, vhosts, items),
        None => read_queues(alloc, vhosts, &[]),
    }
}

/// Reads the exchanges.
#[tactic(auto, unfolding(crate::specs::File::exchanges_list_fault, crate::specs::File::list_fault_at, crate::specs::File::file_exchanges))]
fn exchanges_at(alloc: Global, vhosts: &Names, value: &Value) -> Result<ExchangeList, KeyFault>
    ensures kept { IfOk result (λ list. list.kept.items ≡ file.file_exchanges (view value.now)) }
    ensures names { IfOk result (λ list. list.names ≡ exchanges.exchange_names (lists.items_at (codes "exchanges") (view value.now))) }
    ensures passed { IfOk result (λ list. list.passed ≡ exchanges.passed_exchanges [] (lists.items_at (codes "exchanges") (view value.now))) }
    ensures over { IfOk result (λ list. list.over ≡ exchanges.passed_exchange_count (lists.items_at (codes "exchanges") (view value.now))) }
    ensures inert { IfOk result (λ list. list.inert ≡ exchanges.exchanges_inert (lists.items_at (codes "exchanges") (view value.now))) }
    ensures ok { OnOk result (file.exchanges_list_fault vhosts.now (view value.now) ≡ None) }
    ensures fault { IfErr result (λ fault. fault ≢ KeyFault.Memory
        → file.exchanges_list_fault vhosts.now (view value.now) ≡ Some fault) }
{
    match items_at(alloc, value, "exchanges")? {
        Some(items) => read_exchanges(alloc, vhosts, items),
        None => read_exchanges(alloc, vhosts, &[]),
    }
}

/// Reads the bindings.
#[tactic(auto, unfolding(crate::specs::File::bindings_list_fault, crate::specs::File::list_fault_at))]
fn bindings_at(
    alloc: Global,
    vhosts: &Names,
    kept: &Objects,
    passed: &Objects,
    value: &Value,
) -> Result<BindingList, KeyFault>
    ensures kept { IfOk result (λ list. list.kept.items ≡ bindings.bindings_of passed.now (lists.items_at (codes "bindings") (view value.now))) }
    ensures passed { IfOk result (λ list. list.passed ≡ bindings.passed_bindings passed.now (lists.items_at (codes "bindings") (view value.now))) }
    ensures ok { OnOk result (file.bindings_list_fault vhosts.now kept.now passed.now (view value.now) ≡ None) }
    ensures fault { IfErr result (λ fault. fault ≢ KeyFault.Memory
        → file.bindings_list_fault vhosts.now kept.now passed.now (view value.now) ≡ Some fault) }
{
    match items_at(alloc, value, "bindings")? {
        Some(items) => read_bindings(alloc, vhosts, kept, passed, items),
        None => read_bindings(alloc, vhosts, kept, passed, &[]),
    }
}

/// The parameters and policies, and how many of their keys are inert.
#[derive(Drop)]
struct Settings {
    parameters: Vec<Placed<ParameterDef>>,
    policies: Vec<Placed<PolicyDef>>,
    inert: u32,
}

/// Reads the parameters and the policies.
#[tactic(auto, unfolding(crate::specs::File::settings_fault, crate::specs::File::settings_inert))]
fn read_settings(alloc: Global, vhosts: &Names, value: &Value) -> Result<Settings, KeyFault>
    ensures parameters { IfOk result (λ read. read.parameters.items ≡ file.file_parameters (view value.now)) }
    ensures policies { IfOk result (λ read. read.policies.items ≡ file.file_policies (view value.now)) }
    ensures inert { IfOk result (λ read. read.inert ≡ file.settings_inert (view value.now)) }
    ensures ok { OnOk result (file.settings_fault vhosts.now (view value.now) ≡ None) }
    ensures fault { IfErr result (λ fault. fault ≢ KeyFault.Memory
        → file.settings_fault vhosts.now (view value.now) ≡ Some fault) }
{
    let parameters = parameters_at(alloc, vhosts, value)?;
    let policies = policies_at(alloc, vhosts, value)?;
    Ok(Settings {
        inert: add(parameters.inert, policies.inert)?,
        parameters: parameters.kept,
        policies: policies.kept,
    })
}

/// The queues and exchanges, and the names that bindings may speak of.
#[derive(Drop)]
struct Named {
    queues: Vec<Placed<QueueDef>>,
    exchanges: Vec<Placed<ExchangeDef>>,
    kept: Objects,
    passed: Objects,
    over: u32,
    inert: u32,
}

/// Reads the queues and the exchanges.
#[tactic(auto, unfolding(crate::specs::File::named_fault_in, crate::specs::File::kept_objects, crate::specs::File::passed_objects, crate::specs::File::passed_named, crate::specs::File::objects_inert))]
fn read_named(alloc: Global, vhosts: &Names, value: &Value) -> Result<Named, KeyFault>
    ensures queues { IfOk result (λ read. read.queues.items ≡ file.file_queues (view value.now)) }
    ensures exchanges { IfOk result (λ read. read.exchanges.items ≡ file.file_exchanges (view value.now)) }
    ensures kept { IfOk result (λ read. read.kept ≡ file.kept_objects (view value.now)) }
    ensures passed { IfOk result (λ read. read.passed ≡ file.passed_objects (view value.now)) }
    ensures over { IfOk result (λ read. read.over ≡ file.passed_named (view value.now)) }
    ensures inert { IfOk result (λ read. read.inert ≡ file.objects_inert (view value.now)) }
    ensures ok { OnOk result (file.named_fault_in vhosts.now (view value.now) ≡ None) }
    ensures fault { IfErr result (λ fault. fault ≢ KeyFault.Memory
        → file.named_fault_in vhosts.now (view value.now) ≡ Some fault) }
{
    let queues = queues_at(alloc, vhosts, value)?;
    let exchanges = exchanges_at(alloc, vhosts, value)?;
    Ok(Named {
        over: add(queues.over, exchanges.over)?,
        inert: add(queues.inert, exchanges.inert)?,
        queues: queues.kept,
        exchanges: exchanges.kept,
        kept: Objects {
            queues: queues.names,
            exchanges: exchanges.names,
        },
        passed: Objects {
            queues: queues.passed,
            exchanges: exchanges.passed,
        },
    })
}

/// Reads the lists from the queues on.
#[tactic(auto, unfolding(crate::specs::File::objects_fault, crate::specs::File::file_bindings, crate::specs::File::passed_over))]
fn read_objects(alloc: Global, vhosts: &Names, value: &Value) -> Result<ObjectLists, KeyFault>
    ensures queues { IfOk result (λ read. read.queues.items ≡ file.file_queues (view value.now)) }
    ensures exchanges { IfOk result (λ read. read.exchanges.items ≡ file.file_exchanges (view value.now)) }
    ensures bindings { IfOk result (λ read. read.bindings.items ≡ file.file_bindings (view value.now)) }
    ensures passed { IfOk result (λ read. read.passed ≡ file.passed_objects (view value.now)) }
    ensures passed_over { IfOk result (λ read. read.passed_over ≡ file.passed_over (view value.now)) }
    ensures inert { IfOk result (λ read. read.inert ≡ file.objects_inert (view value.now)) }
    ensures ok { OnOk result (file.objects_fault vhosts.now (view value.now) ≡ None) }
    ensures fault { IfErr result (λ fault. fault ≢ KeyFault.Memory
        → file.objects_fault vhosts.now (view value.now) ≡ Some fault) }
{
    let named = read_named(alloc, vhosts, value)?;
    let bindings = bindings_at(alloc, vhosts, &named.kept, &named.passed, value)?;
    Ok(ObjectLists {
        passed_over: add(named.over, bindings.passed)?,
        inert: named.inert,
        queues: named.queues,
        exchanges: named.exchanges,
        bindings: bindings.kept,
        passed: named.passed,
    })
}

/// The name of the cluster, or else that of the broker.
fn cluster_or(cluster: Option<Text>, name: &Text) -> Result<Text, AllocError>
    ensures { IfOk result (λ chosen. chosen ≡ unwrap_or cluster name.now) }
{
    match cluster {
        Some(cluster) => Ok(cluster),
        None => name.clone(),
    }
}

/// The virtual hosts with what the lists hold.
#[tactic(auto, unfolding(crate::specs::File::hosts_in))]
fn hosts_of(
    alloc: Global,
    vhosts: &Names,
    settings: Settings,
    objects: ObjectLists,
    value: &Value,
) -> Result<Sequence<VhostConfig>, AllocError>
    requires hosts { hosts.AreHosts vhosts.now }
    requires distinct { AreDistinct vhosts.now }
    requires vhosts { vhosts.now ≡ file.file_vhosts (view value.now) }
    requires parameters { settings.parameters.items ≡ file.file_parameters (view value.now) }
    requires policies { settings.policies.items ≡ file.file_policies (view value.now) }
    requires queues { objects.queues.items ≡ file.file_queues (view value.now) }
    requires exchanges { objects.exchanges.items ≡ file.file_exchanges (view value.now) }
    requires bindings { objects.bindings.items ≡ file.file_bindings (view value.now) }
    ensures { IfOk result (λ list. list ≡ file.hosts_in (view value.now)) }
{
    let _lent = value;
    assemble(
        alloc,
        vhosts,
        objects,
        settings.parameters,
        settings.policies,
    )
}

/// Reads the configuration of a broker that the value, an object, holds.
#[tactic(auto, unfolding(crate::specs::File::lists_fault, crate::specs::File::definitions_of, crate::specs::File::broker_of, crate::specs::File::inert))]
fn read_lists(alloc: Global, value: &Value, name: &str) -> Result<Definitions, KeyFault>
    ensures read { IfOk result (λ definitions. definitions ≡ file.definitions_of name.now (view value.now)) }
    ensures ok { OnOk result (file.lists_fault (view value.now) ≡ None) }
    ensures fault { IfErr result (λ fault. fault ≢ KeyFault.Memory
        → file.lists_fault (view value.now) ≡ Some fault) }
{
    let vhosts = vhosts_at(alloc, value)?;
    let cluster = cluster_at(alloc, value)?;
    let settings = read_settings(alloc, &vhosts, value)?;
    let objects = read_objects(alloc, &vhosts, value)?;
    let inert = add(settings.inert, objects.inert)?;
    let passed_over = objects.passed_over;
    let kept = kept_text(alloc, &objects.passed, value)?;
    let hosts = hosts_of(alloc, &vhosts, settings, objects, value)?;
    let name = Text::from_str(alloc, name)?;
    let cluster = cluster_or(cluster, &name)?;
    Ok(Definitions {
        broker: BrokerConfig {
            name,
            cluster,
            vhosts: hosts,
            kept,
        },
        passed_over,
        inert,
    })
}

/// The value of JSON that the octets spell.
#[tactic(auto, unfolding(crate::specs::File::value_of), using(crate::proofs::Utf8Lemmas::is_spelled, crate::proofs::Utf8Lemmas::not_spelled))]
fn parse(alloc: Global, octets: &[u8]) -> Result<Value, DefFault>
    ensures read { IfOk result (λ value. file.value_of octets.now ≡ Some (view value)) }
    ensures fault { IfErr result (λ fault. fault ≢ DefFault.Memory → fault ≡ DefFault.NotJson) }
    ensures none { IfErr result (λ fault. fault ≢ DefFault.Memory → file.value_of octets.now ≡ None) }
{
    let Ok(text) = std::str::from_utf8(octets) else {
        return Err(DefFault::NotJson);
    };
    match Value::from_str(alloc, text) {
        Ok(value) => Ok(value),
        Err(error) => {
            if error.is_memory() {
                return Err(DefFault::Memory);
            }
            Err(DefFault::NotJson)
        }
    }
}

impl Definitions {
    ghost use Rattle.std.specs.Prelude.{◌≡◌, ◌≢◌, None, Some, IfOk, OnOk, IfErr, option_map};
    ghost use Rattle.defs_file.specs.File.{definitions_of, file_fault, value_of};

    /// Reads a definitions file as RabbitMQ exports it, for the broker that the run knows by this name. The first fault is
    /// told, in the order of the lists, of their items and of their keys.
    #[tactic(auto, unfolding(crate::specs::File::file_fault))]
    pub fn read(alloc: Global, bytes: &[u8], name: &str) -> Result<Definitions, DefFault>
        ensures read { IfOk result (λ definitions. option_map (definitions_of name.now) (value_of bytes.now) ≡ Some definitions) }
        ensures ok { OnOk result (file_fault bytes.now ≡ None) }
        ensures fault { IfErr result (λ fault. fault ≢ DefFault.Memory → file_fault bytes.now ≡ Some fault) }
    {
        let value = parse(alloc, bytes)?;
        if !value.is_object() {
            return Err(DefFault::Shape(Text::from_str(alloc, "-")?));
        }
        match read_lists(alloc, &value, name) {
            Ok(definitions) => Ok(definitions),
            Err(fault) => Err(DefFault::from(fault)),
        }
    }
}
