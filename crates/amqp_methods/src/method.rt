//! The methods of AMQP 0-9-1 with RabbitMQ's extensions.

use field_tables::Table;

/// A method of AMQP 0-9-1 (its class and method grammar) or of RabbitMQ's extensions, with its arguments in their order;
/// reserved ones are left out.
#[derive(Drop)]
pub enum Method {
    /// connection.start
    ConnectionStart {
        version_major: u8,
        version_minor: u8,
        server_properties: Table,
        mechanisms: Vec<u8>,
        locales: Vec<u8>,
    },
    /// connection.start-ok
    ConnectionStartOk {
        client_properties: Table,
        mechanism: String,
        response: Vec<u8>,
        locale: String,
    },
    /// connection.secure
    ConnectionSecure {
        challenge: Vec<u8>,
    },
    /// connection.secure-ok
    ConnectionSecureOk {
        response: Vec<u8>,
    },
    /// connection.tune
    ConnectionTune {
        channel_max: u16,
        frame_max: u32,
        heartbeat: u16,
    },
    /// connection.tune-ok
    ConnectionTuneOk {
        channel_max: u16,
        frame_max: u32,
        heartbeat: u16,
    },
    /// connection.open
    ConnectionOpen {
        virtual_host: String,
    },
    /// connection.open-ok
    ConnectionOpenOk,
    /// connection.close
    ConnectionClose {
        reply_code: u16,
        reply_text: String,
        class_id: u16,
        method_id: u16,
    },
    /// connection.close-ok
    ConnectionCloseOk,
    /// connection.blocked
    ConnectionBlocked {
        reason: String,
    },
    /// connection.unblocked
    ConnectionUnblocked,
    /// channel.open
    ChannelOpen,
    /// channel.open-ok
    ChannelOpenOk,
    /// channel.flow
    ChannelFlow {
        active: bool,
    },
    /// channel.flow-ok
    ChannelFlowOk {
        active: bool,
    },
    /// channel.close
    ChannelClose {
        reply_code: u16,
        reply_text: String,
        class_id: u16,
        method_id: u16,
    },
    /// channel.close-ok
    ChannelCloseOk,
    /// exchange.declare
    ExchangeDeclare {
        exchange: String,
        kind: String,
        passive: bool,
        durable: bool,
        auto_delete: bool,
        internal: bool,
        no_wait: bool,
        arguments: Table,
    },
    /// exchange.declare-ok
    ExchangeDeclareOk,
    /// exchange.delete
    ExchangeDelete {
        exchange: String,
        if_unused: bool,
        no_wait: bool,
    },
    /// exchange.delete-ok
    ExchangeDeleteOk,
    /// exchange.bind
    ExchangeBind {
        destination: String,
        source: String,
        routing_key: String,
        no_wait: bool,
        arguments: Table,
    },
    /// exchange.bind-ok
    ExchangeBindOk,
    /// exchange.unbind
    ExchangeUnbind {
        destination: String,
        source: String,
        routing_key: String,
        no_wait: bool,
        arguments: Table,
    },
    /// exchange.unbind-ok
    ExchangeUnbindOk,
    /// queue.declare
    QueueDeclare {
        queue: String,
        passive: bool,
        durable: bool,
        exclusive: bool,
        auto_delete: bool,
        no_wait: bool,
        arguments: Table,
    },
    /// queue.declare-ok
    QueueDeclareOk {
        queue: String,
        message_count: u32,
        consumer_count: u32,
    },
    /// queue.bind
    QueueBind {
        queue: String,
        exchange: String,
        routing_key: String,
        no_wait: bool,
        arguments: Table,
    },
    /// queue.bind-ok
    QueueBindOk,
    /// queue.purge
    QueuePurge {
        queue: String,
        no_wait: bool,
    },
    /// queue.purge-ok
    QueuePurgeOk {
        message_count: u32,
    },
    /// queue.delete
    QueueDelete {
        queue: String,
        if_unused: bool,
        if_empty: bool,
        no_wait: bool,
    },
    /// queue.delete-ok
    QueueDeleteOk {
        message_count: u32,
    },
    /// queue.unbind
    QueueUnbind {
        queue: String,
        exchange: String,
        routing_key: String,
        arguments: Table,
    },
    /// queue.unbind-ok
    QueueUnbindOk,
    /// basic.qos
    BasicQos {
        prefetch_size: u32,
        prefetch_count: u16,
        global: bool,
    },
    /// basic.qos-ok
    BasicQosOk,
    /// basic.consume
    BasicConsume {
        queue: String,
        consumer_tag: String,
        no_local: bool,
        no_ack: bool,
        exclusive: bool,
        no_wait: bool,
        arguments: Table,
    },
    /// basic.consume-ok
    BasicConsumeOk {
        consumer_tag: String,
    },
    /// basic.cancel
    BasicCancel {
        consumer_tag: String,
        no_wait: bool,
    },
    /// basic.cancel-ok
    BasicCancelOk {
        consumer_tag: String,
    },
    /// basic.publish
    BasicPublish {
        exchange: String,
        routing_key: String,
        mandatory: bool,
        immediate: bool,
    },
    /// basic.return
    BasicReturn {
        reply_code: u16,
        reply_text: String,
        exchange: String,
        routing_key: String,
    },
    /// basic.deliver
    BasicDeliver {
        consumer_tag: String,
        delivery_tag: u64,
        redelivered: bool,
        exchange: String,
        routing_key: String,
    },
    /// basic.get
    BasicGet {
        queue: String,
        no_ack: bool,
    },
    /// basic.get-ok
    BasicGetOk {
        delivery_tag: u64,
        redelivered: bool,
        exchange: String,
        routing_key: String,
        message_count: u32,
    },
    /// basic.get-empty
    BasicGetEmpty,
    /// basic.ack
    BasicAck {
        delivery_tag: u64,
        multiple: bool,
    },
    /// basic.reject
    BasicReject {
        delivery_tag: u64,
        requeue: bool,
    },
    /// basic.recover-async
    BasicRecoverAsync {
        requeue: bool,
    },
    /// basic.recover
    BasicRecover {
        requeue: bool,
    },
    /// basic.recover-ok
    BasicRecoverOk,
    /// basic.nack
    BasicNack {
        delivery_tag: u64,
        multiple: bool,
        requeue: bool,
    },
    /// confirm.select
    ConfirmSelect {
        no_wait: bool,
    },
    /// confirm.select-ok
    ConfirmSelectOk,
    /// tx.select
    TxSelect,
    /// tx.select-ok
    TxSelectOk,
    /// tx.commit
    TxCommit,
    /// tx.commit-ok
    TxCommitOk,
    /// tx.rollback
    TxRollback,
    /// tx.rollback-ok
    TxRollbackOk,
}
